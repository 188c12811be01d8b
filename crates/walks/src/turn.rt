// What a message does to a walk.
ghost use Rattle.std.specs.Prelude.{◌≡◌, Ok};
ghost use Rattle.walks.specs.Walk.{past, bounds, turn_of};

use codec::{Lsn, Word};
use messages::{LogRead, Record};
use refusals::Refusal;

#[derive(Clone, Copy, PartialEq, Eq, Debug)]
pub enum Turn {
    Yield(Record),
    // A message of this length is passed.
    Pass(u64),
    // The held segment is let go.
    Release,
    Stop,
}

// Whether an LSN is at the limit or above.
#[tactic(auto, unfolding(crate::specs::Walk::past))]
pub fn past(lsn: Lsn, limit: Option<Lsn>) -> bool
    ensures { result ≡ past lsn limit }
{
    limit.is_some_and(|end| end <= lsn)
}

// Whether a manifest's LSN is past the limit: one below zero never is.
#[tactic(auto, unfolding(crate::specs::Walk::bounds))]
fn bounds(word: Word, limit: Option<Lsn>) -> bool
    ensures { result ≡ bounds word limit }
{
    word.lsn().is_some_and(|lsn| past(lsn, limit))
}

// What a message that was read does. It cannot fail; `turn_of` passes the fault of a read on.
#[tactic(auto, unfolding(crate::specs::Walk::turn_of))]
pub fn turn_at(limit: Option<Lsn>, last: bool, read: LogRead) -> Turn
    ensures { Ok result ≡ turn_of limit last (Ok read) }
{
    match read {
        LogRead::Record(record) => Turn::Yield(record),
        LogRead::Canceled(len) | LogRead::Dangling(len) => Turn::Pass(len),
        LogRead::BatchManifest(word, _) if bounds(word, limit) => Turn::Stop,
        LogRead::BatchManifest(_, len) => Turn::Pass(len),
        LogRead::Corrupted if last => Turn::Release,
        LogRead::Cap => Turn::Release,
        LogRead::Corrupted | LogRead::Short => Turn::Stop,
    }
}

// `last` says that it is the last walk of a recovery: a flag, since one case alone asks for it. A fault of the read stays one.
#[tactic(auto, unfolding(crate::specs::Walk::turn_of))]
pub fn turn_of(
    limit: Option<Lsn>,
    last: bool,
    read: Result<LogRead, Refusal>,
) -> Result<Turn, Refusal>
    ensures { result ≡ turn_of limit last read }
{
    Ok(turn_at(limit, last, read?))
}
