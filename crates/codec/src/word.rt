// Eight-byte fields: an LSN, a stable mark, a manifest's LSN, a blob pointer.
ghost use Rattle.std.specs.Prelude.{◌≡◌, ◌^◌, ◌<◌, if◌then◌else◌, Some, None};
ghost use Rattle.std.proofs.Common.{to_z};
ghost use Rattle.std.specs.Fmt.{signed_decimal, styled_signed_decimal};
ghost use Rattle.std.specs.Int.{w64};
ghost use Rattle.codec.specs.Fields.{below, eight, read_word};
ghost use Rattle.codec.specs.Laws.{word_back};

use crate::little::{get_field, write_bytes};
use crate::{CodecError, Serialize};
use std::fmt::{self, Display, Formatter, Write};

// A place in the log's own count of bytes.
pub type Lsn = u64;

// A field of eight bytes, the lowest first, as it is stored: its highest bit is a sign.
#[derive(Clone, Copy, PartialEq, Eq, Debug)]
pub struct Word {
    pub bits: u64,
}

impl Word {
    // The LSN that the field holds; none where it is below zero.
    pub fn lsn(self) -> Option<Lsn>
        ensures { result ≡ (if below self.bits then None else Some self.bits) }
    {
        (self.bits < 0x8000_0000_0000_0000).then_some(self.bits)
    }

    // The field with its sign.
    pub fn signed(self) -> i64
        ensures { result ≡ to_z w64 self.bits }
    {
        self.bits.cast_signed()
    }
}

// The signed number.
impl Display for Word {
    ghost output = { λ w. Some (signed_decimal (to_z w64 w.bits)) };

    ghost styled_output = { λ w style. Some (styled_signed_decimal style (to_z w64 w.bits)) };

    fn fmt<W: Write>(&self, f: &mut Formatter<W>) -> fmt::Result {
        Display::fmt(&self.signed(), f)
    }
}

impl Serialize for Word {
    ghost bytes = { λ w. eight w.bits };

    ghost valid = { λ w. w.bits < 2 ^ 64 };

    ghost reads = { read_word };

    ghost back = { word_back };

    #[tactic(auto, unfolding(crate::specs::Numbers::octets))]
    fn serialized_size(&self) -> usize {
        8
    }

    #[tactic(auto, using(crate::proofs::Octets::le_octets_8))]
    fn serialize_into(&self, buf: &mut [u8], at: usize) -> Result<usize, CodecError> {
        write_bytes(buf, at, &self.bits.to_le_bytes())
    }

    fn deserialize(buf: &[u8]) -> Result<(Word, &[u8]), CodecError> {
        let (bits, rest) = get_field(buf, 8)?;
        Ok((Word { bits }, rest))
    }
}
