// The tail of a log: the segments that follow each other from a start on.
ghost use Rattle.std.specs.Prelude.{◌^◌, ◌≤◌};
ghost use Rattle.std.specs.List.{All};
ghost use Rattle.tables.specs.Views.{contents};
ghost use Rattle.recovery.specs.Small.{Small};
ghost use Rattle.recovery.specs.Tails.{TailIs};
ghost use Rattle.walks.specs.Walks.{tail_from, tail};

use crate::course::Segment;
use codec::Lsn;
use layout::SegmentSize;
use messages::LogOffset;
use tables::SortedTable;

// Its segments, and where further ones lie behind a gap, the LSN past the first absent one: a walk ends there.
#[derive(Clone, Copy)]
pub(crate) struct Tail<'a> {
    pub(crate) segments: &'a [Segment],
    pub(crate) limit: Option<Lsn>,
}

// The segments that follow each other from `start` on.
#[tactic(auto, using(crate::proofs::Tails::following), unfolding(walks::specs::Walks::first_limit))]
fn follow(segments: &[Segment], size: SegmentSize, start: Lsn) -> Tail<'_>
    requires start { start ≤ 2 ^ 62 }
    requires segments { All (Small size) segments.now }
    ensures { TailIs result (tail_from size start segments.now) }
{
    let mut absent = start;
    for (n, s) in segments.iter().enumerate() {
        if s.key != absent {
            return Tail {
                segments: &segments[..n],
                limit: Some(absent + 1),
            };
        }
        absent += size.bytes();
    }
    Tail {
        segments,
        limit: None,
    }
}

pub(crate) fn find_tail<'a>(
    order: &'a SortedTable<'a, LogOffset>,
    size: SegmentSize,
    start: Lsn,
) -> Tail<'a>
    requires start { start ≤ 2 ^ 62 }
    requires segments { All (Small size) (contents order.now) }
    ensures { TailIs result (tail size start (contents order.now)) }
{
    let order = order.entries();
    let from = order.partition_point(|s| s.key < start);
    follow(&order[from..], size, start)
}
