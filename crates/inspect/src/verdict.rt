// What is to be said of a segment by its first bytes.
ghost use Rattle.std.specs.Prelude.{◌≡◌};
ghost use Rattle.codec.specs.Segments.{read_segment_header};
ghost use Rattle.inspect.specs.Verdicts.{judged, judged_bytes};

use codec::{SegmentHeader, Serialize};
use std::fmt::{self, Display, Formatter, Write};

#[derive(Clone, Copy)]
pub enum Verdict {
    Used(SegmentHeader),
    // The header checks, but no log has an LSN below zero.
    BelowZero(SegmentHeader),
    // Zeros, damage, or too few bytes.
    NoHeader,
}

impl Display for Verdict {
    fn fmt<W: Write>(&self, f: &mut Formatter<W>) -> fmt::Result {
        let (what, header) = match self {
            Verdict::Used(header) => ("used", header),
            Verdict::BelowZero(header) => ("not used: its LSN is below zero", header),
            Verdict::NoHeader => return write!(f, "not used: its header does not check"),
        };
        let (lsn, mark) = (header.lsn, header.max_stable_lsn);
        write!(f, "{what}, LSN {lsn}, stable mark {mark}")
    }
}

fn judge_header(header: SegmentHeader) -> Verdict
    ensures { result ≡ judged header }
{
    if !header.ok() {
        return Verdict::NoHeader;
    }
    match header.lsn.lsn() {
        Some(_) => Verdict::Used(header),
        None => Verdict::BelowZero(header),
    }
}

// The verdict on a segment that begins with `bytes`.
pub fn judge(bytes: &[u8]) -> Verdict
    ensures { result ≡ judged_bytes (read_segment_header bytes.now) }
{
    match SegmentHeader::deserialize(bytes) {
        Ok((header, _)) => judge_header(header),
        Err(_) => Verdict::NoHeader,
    }
}
