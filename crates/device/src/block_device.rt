// Writing bytes to a device, block by block.
ghost use Rattle.std.specs.Prelude.{◌≡◌, ℕ, ◌^◌, ◌<◌, ◌≤◌, Bool, if◌then◌else◌, length, is_ok, OnErr};
ghost use Rattle.device.specs.Writes.{written, write_reply, loosened, spent};

use crate::{DeviceError, ReadAt};
use layout::SegmentSize;

// Bytes from the place 0 on that can be written. Block b is the places from b * block size on. A loose block is written at
// no cost; the first write to any other makes it loose and takes a spare one.
// That the first place is 0 is a law, and stands besides in the contract of each method: behind a `dyn` no law is known.
pub trait Device: ReadAt {
    ghost capacity: { Self → ℕ };

    ghost block_size: { Self → ℕ };

    ghost loose: { Self → ℕ → Bool };

    ghost spare: { Self → ℕ };

    fn len(&self) -> u64
        ensures base { Self.ReadAt.first self.now ≡ 0 }
        ensures value { result ≡ length (Self.ReadAt.bytes self.now) }
        ensures bound { result ≤ capacity self.now };

    fn capacity(&self) -> u64
        ensures base { Self.ReadAt.first self.now ≡ 0 }
        ensures value { result ≡ capacity self.now }
        ensures bound { result < 2 ^ 64 };

    fn block_size(&self) -> SegmentSize
        ensures base { Self.ReadAt.first self.now ≡ 0 }
        ensures value { result ≡ block_size self.now };

    fn is_loose(&self, block: u64) -> bool
        ensures base { Self.ReadAt.first self.now ≡ 0 }
        ensures value { result ≡ loose self.now block };

    fn spare(&self) -> u64
        ensures base { Self.ReadAt.first self.now ≡ 0 }
        ensures value { result ≡ spare self.now };

    // Puts `src` at `at`, with zeros in a gap before it. An empty write is accepted anywhere.
    fn write(&mut self, src: &[u8], at: u64) -> Result<(), DeviceError>
        ensures base { (Self.ReadAt.first self.old ≡ 0) × (Self.ReadAt.first self.new ≡ 0) }
        ensures reply { result ≡ write_reply (capacity self.old) (block_size self.old) (loose self.old) (spare self.old) at (length src.now) }
        ensures kept { OnErr result (self.new ≡ self.old) }
        ensures bytes { Self.ReadAt.bytes self.new ≡ (if is_ok result
            then written (Self.ReadAt.bytes self.old) at src.now
            else Self.ReadAt.bytes self.old) }
        ensures same { (capacity self.new ≡ capacity self.old) × (block_size self.new ≡ block_size self.old) }
        ensures loose { (b : ℕ) → loose self.new b ≡ (if is_ok result
            then loosened (block_size self.old) (loose self.old) at (length src.now) b
            else loose self.old b) }
        ensures spare { spare self.new ≡ (if is_ok result
            then spent (block_size self.old) (loose self.old) (spare self.old) at (length src.now)
            else spare self.old) };

    // The first place is 0.
    ghost base: { (d : Self) → Self.ReadAt.first d ≡ 0 };
}
