// Lent bytes that begin at a place other than 0.
ghost use Rattle.std.specs.Prelude.{◌≡◌, ◌-◌, true, false, drop, MatchResult};
ghost use Rattle.device.specs.Reads.{begins};
ghost use Rattle.device.specs.declared.error.DeviceError.TheVariants.{Outside};

use crate::{DeviceError, ReadAt};

#[derive(Clone, Copy)]
pub struct BasedBuf<'a> {
    pub buf: &'a [u8],
    // The place of the first byte.
    pub offset: u64,
}

impl<'a> BasedBuf<'a> {
    // The bytes from `at` on. Refused before the first place and above the end.
    fn bytes_from(&self, at: u64) -> Result<&[u8], DeviceError>
        ensures { MatchResult result
            (λ b. (begins self.now.offset self.now.buf.now at ≡ true) × (b.now ≡ drop (at - self.now.offset) self.now.buf.now))
            (λ e. (begins self.now.offset self.now.buf.now at ≡ false) × (e ≡ Outside)) }
    {
        let from = at.checked_sub(self.offset).ok_or(DeviceError::Outside)?;
        self.buf.get(from as usize..).ok_or(DeviceError::Outside)
    }
}

impl<'a> ReadAt for BasedBuf<'a> {
    ghost first = { λ b. b.offset };

    ghost bytes = { λ b. b.buf.now };

    fn pread_exact(&self, dst: &mut [u8], at: u64) -> Result<(), DeviceError> {
        if dst.is_empty() {
            return Ok(());
        }
        let bytes = self
            .bytes_from(at)?
            .get(..dst.len())
            .ok_or(DeviceError::Outside)?;
        dst.copy_from_slice(bytes);
        Ok(())
    }

    fn pread_exact_or_eof(&self, dst: &mut [u8], at: u64) -> Result<usize, DeviceError> {
        let bytes = self.bytes_from(at)?;
        let n = dst.len().min(bytes.len());
        dst[..n].copy_from_slice(&bytes[..n]);
        Ok(n)
    }
}
