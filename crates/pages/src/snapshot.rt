// A snapshot: how far the log is known, and the pages up to there.
ghost use Rattle.std.specs.Prelude.{◌≡◌, []};
ghost use Rattle.pages.specs.Snapshots.{nothing, snap_of};

use crate::{Fragment, PageState};
use codec::Lsn;
use messages::LogOffset;

// Entry i of `pages` is the state of page i. The fragments of all pages stand in `fragments`, in the order of their pages and then
// of their LSNs.
#[derive(Clone, Copy)]
pub struct Snapshot<'a> {
    pub stable_lsn: Option<Lsn>,
    pub active_segment: Option<LogOffset>,
    pub pages: &'a [PageState],
    pub fragments: &'a [Fragment],
}

impl Snapshot<'static> {
    // What is known of a log that was never recovered.
    #[tactic(auto, unfolding(crate::specs::Snapshots::nothing, crate::specs::Snapshots::snap_of, crate::specs::Shown::nested))]
    pub fn nothing() -> Self
        ensures value { snap_of result ≡ nothing }
        ensures pages { result.pages.now ≡ [] }
        ensures fragments { result.fragments.now ≡ [] }
    {
        Snapshot {
            stable_lsn: None,
            active_segment: None,
            pages: &[],
            fragments: &[],
        }
    }
}
