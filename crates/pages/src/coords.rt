// Where the log ends, by a snapshot.
ghost use Rattle.std.specs.Prelude.{◌≡◌};
ghost use Rattle.pages.specs.Examples.{Examples};
ghost use Rattle.pages.specs.Replies.{checked, coords_reply};
ghost use Rattle.pages.specs.Snapshots.{snap_of, coords_at};

use crate::Snapshot;
use codec::Lsn;
use layout::SegmentSize;
use messages::LogOffset;
use refusals::Refusal;

// The coordinates of a log that is known up to `stable`: with no active segment it goes on at the next segment's LSN.
#[tactic(auto, using(crate::proofs::Rounds::next_rounds), unfolding(crate::specs::Replies::checked, crate::specs::Replies::fits, crate::specs::Snapshots::coords_at))]
fn coords_at(
    size: SegmentSize,
    stable: Lsn,
    active: Option<LogOffset>,
) -> Result<(Option<LogOffset>, Option<Lsn>), Refusal>
    ensures { result ≡ checked (coords_at size stable active) }
{
    let size = size.bytes();
    match active {
        Some(segment) => {
            let place = segment.checked_add(stable % size).ok_or(Refusal::Snapshot)?;
            Ok((Some(place), Some(stable)))
        }
        None => {
            let lsn = stable
                .checked_next_multiple_of(size)
                .ok_or(Refusal::Snapshot)?;
            Ok((None, Some(lsn)))
        }
    }
}

impl Snapshot<'_> {
    // The place and the LSN at which the log goes on. Refused: a size that no segment has, a coordinate that does not fit 64 bits.
    #[tactic(auto, using(crate::proofs::Worked::examples), unfolding(crate::specs::Replies::coords_reply, crate::specs::Replies::checked, crate::specs::Replies::fits, crate::specs::Snapshots::coords, crate::specs::Snapshots::snap_of))]
    pub fn recovered_coords(&self, size: u64) -> Result<(Option<LogOffset>, Option<Lsn>), Refusal>
        ensures reply { result ≡ coords_reply size (snap_of self.now) }
        ensures examples { Examples }
    {
        let size = SegmentSize::new(size).ok_or(Refusal::Size)?;
        match self.stable_lsn {
            Some(stable) => coords_at(size, stable, self.active_segment),
            None => Ok((None, None)),
        }
    }
}
