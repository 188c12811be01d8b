// How a cover is asked and written.
ghost use Rattle.std.specs.Prelude.{◌≡◌, ℕ, ◌*◌, ◌-◌, ◌^◌, ◌<◌, ◌||◌, ◌==◌, nat_lt, if◌then◌else◌, true, Some, is_ok, IfOk, MatchResult, refl, None, vec_len, ◌+◌, ◌≤◌, ◌⊎◌, slice_index};
ghost use Rattle.std.specs.Option.{ok_or};
ghost use Rattle.device.specs.declared.error.DeviceError.TheVariants.{NoSpare};
ghost use Rattle.cover.specs.Entries.{entry_of, unmarked};
ghost use Rattle.cover.specs.Meaning.{entries, contents, covers};

use crate::Cover;
use crate::blocks::copy_padded;
use device::{Device, DeviceError};
use layout::SegmentSize;

impl<'a> Cover<'a> {
    // The entry of a block. Where no entry names it, the first unmarked one gets it, and its bytes.
    fn cover_block(&mut self, block: u64) -> Result<usize, DeviceError>
        requires { block * self.old.geometry.block_size < 2 ^ 64 }
        ensures variant { is_ok result ≡ (covers self.old block || nat_lt 0 (unmarked (entries self.old))) }
        ensures reply { MatchResult result
            (λ i. entry_of (entries self.new) (Some block) ≡ Some i)
            (λ e. (e ≡ NoSpare) × (self.new ≡ self.old)) }
        ensures taken { result ≡ ok_or (if covers self.old block
            then entry_of (entries self.old) (Some block)
            else entry_of (entries self.old) None) NoSpare }
        ensures room { vec_len self.new.buf ≡ vec_len self.old.buf }
        ensures others { IfOk result (λ i. (k : ℕ)
            → (k < i * self.old.geometry.block_size) ⊎ (i * self.old.geometry.block_size + self.old.geometry.block_size ≤ k)
            → slice_index self.new.buf.items k ≡ slice_index self.old.buf.items k) }
        ensures bytes { contents self.new ≡ contents self.old }
        ensures same { (self.new.geometry ≡ self.old.geometry) × (self.new.len ≡ self.old.len) }
        ensures covered { IfOk result (λ _. (b : ℕ) → covers self.new b ≡ (covers self.old b || b == block)) }
        ensures spare { IfOk result (λ _. unmarked (entries self.new) ≡
            (if covers self.old block then unmarked (entries self.old) else unmarked (entries self.old) - 1)) }
    {
        if let Some(i) = self.table.find(Some(block)) {
            return Ok(i);
        }
        let i = self.table.find(None).ok_or(DeviceError::NoSpare)?;
        let size = self.geometry.block_size().bytes() as usize;
        let start = i * size;
        copy_padded(
            &mut self.buf.as_mut_slice()[start..start + size],
            self.medium,
            block as usize * size,
        );
        self.table.mark(i, block);
        Ok(i)
    }
}

impl<'a> Device for Cover<'a> {
    ghost capacity = { λ c. c.geometry.capacity };

    ghost block_size = { λ c. c.geometry.block_size };

    ghost loose = { covers };

    ghost spare = { λ c. unmarked (entries c) };

    fn len(&self) -> u64 {
        self.len
    }

    fn capacity(&self) -> u64 {
        self.geometry.capacity()
    }

    fn block_size(&self) -> SegmentSize {
        self.geometry.block_size()
    }

    fn is_loose(&self, block: u64) -> bool {
        self.table.find(Some(block)).is_some()
    }

    fn spare(&self) -> u64 {
        self.table.unmarked() as u64
    }

    fn write(&mut self, src: &[u8], at: u64) -> Result<(), DeviceError> {
        if src.is_empty() {
            return Ok(());
        }
        let n = src.len() as u64;
        if !self.geometry.fits(at, n) {
            return Err(DeviceError::Outside);
        }
        let size = self.geometry.block_size().bytes();
        let i = self.cover_block(at / size)?;
        let start = i * size as usize + (at % size) as usize;
        self.buf.as_mut_slice()[start..start + src.len()].copy_from_slice(src);
        self.len = self.len.max(at + n);
        Ok(())
    }

    ghost base = { λ _. refl };
}
