// Reading bytes at a place.
ghost use Rattle.std.specs.Prelude.{◌≡◌, ℕ, List, length, is_ok, if◌then◌else◌};
ghost use Rattle.device.specs.Reads.{part, filled, exact_reply, eof_reply};

use crate::DeviceError;

// A list of bytes, the first of which stands at the place `first`. A refused read leaves `dst` as it was.
pub trait ReadAt {
    ghost first: { Self → ℕ };

    ghost bytes: { Self → List ℕ };

    // Fills `dst` from `at` on. Refused where a wanted byte lies outside.
    fn pread_exact(&self, dst: &mut [u8], at: u64) -> Result<(), DeviceError>
        ensures reply { result ≡ exact_reply (first self.now) (bytes self.now) at (length dst.old) }
        ensures after { dst.new ≡ (if is_ok result then part (first self.now) (bytes self.now) at (length dst.old) else dst.old) };

    // Copies what there is from `at` on, as much as `dst` takes, and replies how much that is.
    // Refused before the first place and above the end.
    fn pread_exact_or_eof(&self, dst: &mut [u8], at: u64) -> Result<usize, DeviceError>
        ensures reply { result ≡ eof_reply (first self.now) (bytes self.now) at (length dst.old) }
        ensures after { dst.new ≡ (if is_ok result then filled (first self.now) (bytes self.now) at dst.old else dst.old) };
}
