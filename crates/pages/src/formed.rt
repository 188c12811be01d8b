// Whether a snapshot is well formed, by one pass over its tables.
ghost use Rattle.std.specs.Prelude.{◌≡◌, ◌^◌, not, ◌&&◌, length, is_some, ◌==◌, nat_le};
ghost use Rattle.std.specs.Option.{option_map};
ghost use Rattle.layout.specs.Sizes.{is_segment_size};
ghost use Rattle.pages.specs.Passes.{own, behind, passes};
ghost use Rattle.pages.specs.Snapshots.{placed, formed};

use crate::{Fragment, PageState, Snapshot};
use codec::{Lsn, MAX_MSG_HEADER_LEN, PageId};
use layout::{SEG_HEADER_LEN, SegmentSize};
use messages::LogOffset;

// The largest LSN that a log may be known up to.
const MAX_STABLE_LSN: Lsn = 1 << 62;

// Whether the fragments are all of page `pid`, with rising LSNs from `low` on and below `top`.
#[tactic(auto, using(crate::proofs::Passing::own_steps))]
fn are_own(fragments: &[Fragment], pid: PageId, low: Lsn, top: Lsn) -> bool
    ensures { result ≡ own pid low top fragments.now }
{
    let mut next = low;
    for fragment in fragments {
        let lsn = fragment.item.0;
        if fragment.pid != pid || lsn < next || lsn >= top {
            return false;
        }
        next = lsn + 1;
    }
    true
}

// The fragments behind those of page `pid`, where these are its own and it is sound below `top`.
fn behind(pid: PageId, top: Lsn, page: PageState, fragments: &[Fragment]) -> Option<&[Fragment]>
    ensures { option_map (λ rest. rest.now) result ≡ behind pid top page fragments.now }
{
    match page {
        PageState::Uninitialized => Some(fragments),
        PageState::Free(lsn, _) => (lsn < top).then_some(fragments),
        PageState::Present(base, n) => {
            let (own, rest) = fragments.split_at_checked(n)?;
            (base.0 < top && are_own(own, pid, base.0 + 1, top)).then_some(rest)
        }
    }
}

// Whether the fragments are those of the pages, page by page, and all pages are sound below `top`.
#[tactic(auto, using(crate::proofs::Passing::passes_steps))]
fn are_sound(pages: &[PageState], fragments: &[Fragment], top: Lsn) -> bool
    ensures { result ≡ passes 0 top pages.now fragments.now }
{
    let mut rest = fragments;
    for (pid, page) in pages.iter().enumerate() {
        let Some(others) = behind(pid as PageId, top, *page, rest) else {
            return false;
        };
        rest = others;
    }
    rest.is_empty()
}

// Whether the log goes on at `stable`: in the active segment with room behind it, or with a new segment.
#[tactic(auto, unfolding(crate::specs::Snapshots::placed))]
fn is_placed(size: SegmentSize, stable: Lsn, active: Option<LogOffset>) -> bool
    ensures { result ≡ placed size stable active }
{
    let size = size.bytes();
    let progress = stable % size;
    match active {
        Some(segment) => {
            segment % size == 0
                && progress >= SEG_HEADER_LEN as u64
                && progress + (MAX_MSG_HEADER_LEN as u64) < size
        }
        None => progress == 0,
    }
}

impl Snapshot<'_> {
    // Whether it holds nothing, as it must with no stable LSN.
    fn is_nothing(&self) -> bool
        ensures { result ≡ (not (is_some self.now.active_segment) && (length self.now.pages.now == 0 && length self.now.fragments.now == 0)) }
    {
        self.active_segment.is_none() && self.pages.is_empty() && self.fragments.is_empty()
    }

    // Whether it is sound with the stable LSN `stable`.
    fn is_sound_at(&self, size: SegmentSize, stable: Lsn) -> bool
        ensures { result ≡ (nat_le stable (2 ^ 62) && (placed size stable self.now.active_segment && passes 0 stable self.now.pages.now self.now.fragments.now)) }
    {
        stable <= MAX_STABLE_LSN
            && is_placed(size, stable, self.active_segment)
            && are_sound(self.pages, self.fragments, stable)
    }

    // Whether it keeps the rules of every snapshot given out. None does for a size that no segment has.
    #[tactic(auto, using(crate::proofs::Passing::formed_some, crate::proofs::Passing::formed_none))]
    pub fn is_well_formed(&self, size: u64) -> bool
        ensures { result ≡ (is_segment_size size && formed size self.now) }
    {
        let Some(size) = SegmentSize::new(size) else {
            return false;
        };
        match self.stable_lsn {
            Some(stable) => self.is_sound_at(size, stable),
            None => self.is_nothing(),
        }
    }
}
