// The header of a segment: checksum (4 bytes), LSN (8), stable mark (8).
ghost use Rattle.std.specs.Prelude.{◌≡◌, ℕ, true, false, List, replicate, Some};
ghost use Rattle.codec.specs.Numbers.{Bytes};
ghost use Rattle.codec.specs.Segments.{masked, fields, segment_header, SegmentFits, read_segment_header, segment_of, checks};
ghost use Rattle.codec.specs.Laws.{segment_back};

use crate::little::{put_bytes, write_bytes};
use crate::{CodecError, Serialize, Word};
use checksum::checksum;
use layout::SEG_HEADER_LEN;

// Both fields are stored under this mask, so that a header of zeros means no LSN in use.
const MASK: u64 = 0x7FFF_FFFF_FFFF_FFFF;

#[derive(Clone, Copy, PartialEq, Eq, Debug)]
pub struct SegmentHeader {
    // As stored: the complement of the checksum of the fields.
    pub crc32: u32,
    pub lsn: Word,
    pub max_stable_lsn: Word,
}

// A field as stored, and back again.
fn masked(field: Word) -> Word
    ensures { result.bits ≡ masked field.bits }
{
    Word {
        bits: field.bits ^ MASK,
    }
}

// What a header holds behind its checksum.
fn fields(lsn: Word, mark: Word) -> [u8; 16]
    ensures { result ≡ fields lsn.bits mark.bits }
{
    let mut bytes = [0u8; 16];
    let end = put_bytes(&mut bytes, 0, &masked(lsn).bits.to_le_bytes());
    put_bytes(&mut bytes, end, &masked(mark).bits.to_le_bytes());
    bytes
}

impl SegmentHeader {
    // The header of a segment that begins at `lsn`, with its checksum.
    pub fn new(lsn: Word, max_stable_lsn: Word) -> Self
        ensures value { result ≡ segment_of lsn.bits max_stable_lsn.bits }
        ensures checks { checks (segment_header result) ≡ true }
    {
        let crc32 = !checksum(&fields(lsn, max_stable_lsn));
        SegmentHeader {
            crc32,
            lsn,
            max_stable_lsn,
        }
    }

    // Whether the stored checksum is that of the fields. A header that was read checks exactly if its bytes do,
    // and zeros never do.
    pub fn ok(&self) -> bool
        ensures value { result ≡ checks (segment_header self.now) }
        ensures bytes { (bs rest : List ℕ) → Bytes bs → read_segment_header bs ≡ Some (self.now, rest) → result ≡ checks bs }
        ensures zeros { checks (replicate 20 0) ≡ false }
    {
        let stored = !self.crc32;
        stored == checksum(&fields(self.lsn, self.max_stable_lsn))
    }

    // The stored checksum, then the fields.
    fn to_bytes(self) -> [u8; SEG_HEADER_LEN]
        ensures value { result ≡ segment_header self }
        ensures fits { SegmentFits self }
    {
        let mut bytes = [0u8; SEG_HEADER_LEN];
        let end = put_bytes(&mut bytes, 0, &self.crc32.to_le_bytes());
        put_bytes(&mut bytes, end, &fields(self.lsn, self.max_stable_lsn));
        bytes
    }
}

impl Serialize for SegmentHeader {
    ghost bytes = { segment_header };

    ghost valid = { SegmentFits };

    ghost reads = { read_segment_header };

    ghost back = { segment_back };

    #[tactic(auto, unfolding(crate::specs::Numbers::octets))]
    fn serialized_size(&self) -> usize {
        SEG_HEADER_LEN
    }

    fn serialize_into(&self, buf: &mut [u8], at: usize) -> Result<usize, CodecError> {
        write_bytes(buf, at, &self.to_bytes())
    }

    fn deserialize(buf: &[u8]) -> Result<(SegmentHeader, &[u8]), CodecError> {
        let (crc32, rest) = u32::deserialize(buf)?;
        let (lsn, rest) = Word::deserialize(rest)?;
        let (mark, rest) = Word::deserialize(rest)?;
        Ok((
            SegmentHeader {
                crc32,
                lsn: masked(lsn),
                max_stable_lsn: masked(mark),
            },
            rest,
        ))
    }
}
