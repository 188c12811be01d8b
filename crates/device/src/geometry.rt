// The two numbers that a device is made with, and which writes they admit.
ghost use Rattle.std.specs.Prelude.{◌≡◌, ◌+◌, ◌^◌, ◌<◌, true, false, MatchResult};
ghost use Rattle.layout.specs.Sizes.{is_segment_size};
ghost use Rattle.device.specs.Writes.{fits};
ghost use Rattle.device.specs.declared.error.DeviceError.TheVariants.{BlockSize};

use crate::DeviceError;
use layout::SegmentSize;

#[derive(Clone, Copy, Drop)]
pub struct Geometry {
    capacity: u64,
    block_size: SegmentSize,
}

impl Geometry {
    // Refused where no segment has that block size.
    pub fn new(block_size: u64, capacity: u64) -> Result<Geometry, DeviceError>
        ensures { MatchResult result
            (λ g. (is_segment_size block_size ≡ true) × (g.capacity ≡ capacity) × (g.block_size ≡ block_size))
            (λ e. (is_segment_size block_size ≡ false) × (e ≡ BlockSize)) }
    {
        let block_size = SegmentSize::new(block_size).ok_or(DeviceError::BlockSize)?;
        Ok(Geometry {
            capacity,
            block_size,
        })
    }

    pub fn capacity(&self) -> u64
        ensures { result ≡ self.now.capacity }
    {
        self.capacity
    }

    pub fn block_size(&self) -> SegmentSize
        ensures { result ≡ self.now.block_size }
    {
        self.block_size
    }

    // Whether a write of `n` bytes at `at` crosses no block border and does not pass the capacity.
    pub fn fits(&self, at: u64, n: u64) -> bool
        ensures value { result ≡ fits self.now.capacity self.now.block_size at n }
        ensures bound { result ≡ true → at + n < 2 ^ 64 }
    {
        if n > self.capacity || at > self.capacity - n {
            return false;
        }
        let size = self.block_size.bytes();
        let last = at + n.saturating_sub(1);
        at / size == last / size
    }
}
