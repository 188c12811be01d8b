// The sizes that segments may have, and how many a log has.
ghost use Rattle.std.specs.Prelude.{◌≡◌, ℕ, ◌^◌, ◌≤◌, true, if◌then◌else◌, Some, None};
ghost use Rattle.layout.specs.Sizes.{is_segment_size, counted};

use std::marker::Model;

// A segment begins with a header of this many bytes.
pub const SEG_HEADER_LEN: usize = 20;

// The sizes that the format allows, in bytes.
const MIN_SEGMENT_SIZE: u64 = 256;

const MAX_SEGMENT_SIZE: u64 = 1_048_576;

// A size that segments may have.
#[derive(Clone, Copy, PartialEq, Eq, Debug)]
pub struct SegmentSize {
    bytes: u64,
}

impl Model for SegmentSize {
    ghost Value = { ℕ };

    ghost view = { λ s. s.bytes };

    ghost invariant = { λ s. is_segment_size s.bytes ≡ true };

    ghost inverse = { λ n. record { bytes = n } };
}

impl SegmentSize {
    // None where no log has that segment size.
    pub fn new(bytes: u64) -> Option<SegmentSize>
        ensures { result ≡ (if is_segment_size bytes then Some bytes else None) }
    {
        if is_segment_size(bytes) {
            Some(SegmentSize { bytes })
        } else {
            None
        }
    }

    // In bytes.
    pub fn bytes(self) -> u64
        ensures value { result ≡ self }
        ensures sized { is_segment_size result ≡ true }
        ensures bounds { (256 ≤ result) × (result ≤ 1048576) }
    {
        self.bytes
    }

    // How many segments a log of `len` bytes has: a last part counts where it holds a header.
    pub fn count_in(self, len: u64) -> u64
        ensures { result ≡ counted len self }
    {
        let whole = len / self.bytes;
        if len % self.bytes >= SEG_HEADER_LEN as u64 {
            whole + 1
        } else {
            whole
        }
    }
}

// How many segments of `size` bytes a log of `len` bytes has. None where no log has that segment size.
pub fn segment_count(len: u64, size: u64) -> Option<u64>
    ensures { result ≡ (if is_segment_size size then Some (counted len size) else None) }
{
    Some(SegmentSize::new(size)?.count_in(len))
}

// A power of two from 256 to 1,048,576.
pub fn is_segment_size(size: u64) -> bool
    ensures value { result ≡ is_segment_size size }
    ensures power { result ≡ true → (j : ℕ) × (size ≡ 2 ^ j) }
{
    size >= MIN_SEGMENT_SIZE && size <= MAX_SEGMENT_SIZE && size.is_power_of_two()
}
