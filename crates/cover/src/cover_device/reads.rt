// How a cover is read.
ghost use Rattle.std.specs.Prelude.{◌≡◌, ℕ, ◌+◌, ◌-◌, ◌*◌, ◌^◌, ◌<◌, ◌≤◌, length, slice_index, MatchResult};
ghost use Rattle.device.specs.Reads.{part};
ghost use Rattle.device.specs.declared.error.DeviceError.TheVariants.{Outside};
ghost use Rattle.cover.specs.Meaning.{entries, contents, byte_at};
ghost use Rattle.cover.specs.Shown.{block_bytes};

use crate::Cover;
use crate::blocks::{copy_padded, span};
use device::{DeviceError, ReadAt};

impl<'a> Cover<'a> {
    // The bytes of a block: a part of the cover where an entry names it, otherwise what the medium has of it.
    fn block_bytes(&self, block: u64) -> &[u8]
        requires { block * self.now.geometry.block_size < 2 ^ 64 }
        ensures { result.now ≡ block_bytes self.now.geometry.block_size (entries self.now) self.now.buf.items self.now.medium.now block }
    {
        let size = self.geometry.block_size().bytes() as usize;
        match self.table.find(Some(block)) {
            Some(i) => span(self.buf.as_slice(), i * size, size),
            None => span(self.medium, block as usize * size, size),
        }
    }

    // Copies the bytes from `at` on into the front of `dst`, as far as their block goes, and replies how many those are.
    fn copy_piece(&self, dst: &mut [u8], at: u64) -> usize
        requires some { 0 < length dst.old }
        ensures count { (0 < result) × (result ≤ length dst.old) }
        ensures front { (k : ℕ) → k < result → slice_index dst.new k ≡ byte_at self.now (at + k) }
    {
        let size = self.geometry.block_size().bytes();
        let from = (at % size) as usize;
        let n = dst.len().min(size as usize - from);
        copy_padded(&mut dst[..n], self.block_bytes(at / size), from);
        n
    }

    fn copy_out(&self, dst: &mut [u8], at: u64)
        requires inside { at + length dst.old ≤ length (contents self.now) }
        requires places { at + length dst.old < 2 ^ 64 }
        ensures { dst.new ≡ part 0 (contents self.now) at (length dst.old) }
    {
        // The first piece ends with its block, so these are no `chunks_mut`.
        let mut done = 0;
        let end = dst.len();
        while done < end {
            done += self.copy_piece(&mut dst[done..], at + done as u64);
        }
    }

    // How many bytes there are from `at` on. Refused above the end.
    fn len_from(&self, at: u64) -> Result<u64, DeviceError>
        ensures { MatchResult result
            (λ n. (at + n ≡ length (contents self.now)) × (at + n < 2 ^ 64))
            (λ e. (length (contents self.now) < at) × (e ≡ Outside)) }
    {
        self.len.checked_sub(at).ok_or(DeviceError::Outside)
    }
}

impl<'a> ReadAt for Cover<'a> {
    ghost first = { λ _. 0 };

    ghost bytes = { contents };

    fn pread_exact(&self, dst: &mut [u8], at: u64) -> Result<(), DeviceError> {
        if dst.is_empty() {
            return Ok(());
        }
        if dst.len() as u64 > self.len_from(at)? {
            return Err(DeviceError::Outside);
        }
        self.copy_out(dst, at);
        Ok(())
    }

    fn pread_exact_or_eof(&self, dst: &mut [u8], at: u64) -> Result<usize, DeviceError> {
        let n = (dst.len() as u64).min(self.len_from(at)?) as usize;
        self.copy_out(&mut dst[..n], at);
        Ok(n)
    }
}
