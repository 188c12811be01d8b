// The pages of a recovery, in the two tables that the caller lends.
ghost use Rattle.std.specs.Prelude.{◌≡◌, ℕ, ◌+◌, ◌-◌, ◌<◌, ◌≤◌, [], ◌++◌, length, take, drop, replicate, OnOk, OnErr};
ghost use Rattle.layout.specs.declared.kind.LogKind.TheVariants.{Link};
ghost use Rattle.pages.specs.Pages.{item_of, place_of, apply, verdict};
ghost use Rattle.pages.specs.Shown.{nested};
ghost use Rattle.recovery.specs.Flat.{flat, fragments_in, alive, blank, state_at, renewed, appended, Kept, SameTables, Cleared, Given, InOrder, Settled, Compacted, Roomy};

use crate::checks::Budget;
use layout::LogKind;
use messages::{DiskPtr, LogOffset, Record};
use pages::{Fragment, Item, PageState, Snapshot};
use refusals::Refusal;

const BLANK: Fragment = Fragment {
    pid: 0,
    item: (0, DiskPtr::Inline(0), 0),
};

#[tactic(auto, unfolding(pages::specs::Pages::place_of))]
fn place_of(ptr: DiskPtr) -> LogOffset
    ensures { result ≡ place_of ptr }
{
    match ptr {
        DiskPtr::Inline(place) | DiskPtr::Blob(place, _) => place,
    }
}

#[tactic(auto, unfolding(pages::specs::Pages::item_of))]
fn item_of(r: Record) -> Item
    ensures { result ≡ item_of r }
{
    (r.lsn, r.ptr, r.len)
}

#[tactic(auto, unfolding(crate::specs::Flat::fragments_in))]
fn fragments_in(state: PageState) -> usize
    ensures { result ≡ fragments_in state }
{
    match state {
        PageState::Present(_, n) => n,
        _ => 0,
    }
}

fn copy_to_front<T: Copy>(table: &mut [T], given: &[T])
    requires { length given.now ≤ length table.old }
    ensures { table.new ≡ given.now ++ drop (length given.now) table.old }
{
    table[..given.len()].copy_from_slice(given);
}

// Puts the first fragments in order, by page and then by LSN, and clears what is behind them.
fn put_in_order(fragments: &mut [Fragment], used: usize)
    requires { used ≤ length fragments.old }
    ensures front { InOrder (take used fragments.old) (take used fragments.new) }
    ensures behind { drop used fragments.new ≡ replicate (length fragments.old - used) blank }
{
    let (front, behind) = fragments.split_at_mut(used);
    front.sort_unstable_by_key(|f| (f.pid, f.item.0));
    behind.fill(BLANK);
}

// While records come, fragments are only appended. Those that a replacement or a free has dropped are older than the page's base;
// they stay until room is needed.
#[derive(Drop)]
pub(crate) struct PageTable<'a> {
    states: &'a mut [PageState],
    fragments: &'a mut [Fragment],
    // Pages in the table; states behind them are uninitialized.
    count: usize,
    // Fragments at the front, of which `live` belong to a page as it is now.
    used: usize,
    live: usize,
}

impl<'a> PageTable<'a> {
    // A table without pages. It clears the two that it is lent.
    pub(crate) fn new(states: &'a mut [PageState], fragments: &'a mut [Fragment]) -> PageTable<'a>
        ensures cleared { Cleared result }
        ensures pages { flat result ≡ [] }
        ensures kept { Kept 0 result }
        ensures states { result.states.ghost_name ≡ states.entry.ghost_name }
        ensures fragments { result.fragments.ghost_name ≡ fragments.entry.ghost_name }
        ensures states_size { length result.states.now ≡ length states.old }
        ensures fragments_size { length result.fragments.now ≡ length fragments.old }
    {
        let mut table = PageTable {
            states,
            fragments,
            count: 0,
            used: 0,
            live: 0,
        };
        table.clear();
        table
    }

    // How many pages there are.
    pub(crate) fn count(&self) -> usize
        ensures { result ≡ self.now.count }
    {
        self.count
    }

    // How many fragments there are, once they are in order.
    pub(crate) fn used(&self) -> usize
        ensures { result ≡ self.now.used }
    {
        self.used
    }

    // How much memory is lent, with buffers of these sizes.
    pub(crate) fn budget(&self, segment: usize, body: usize, order: usize) -> Budget
        ensures { result ≡ record { segment = segment; body = body; order = order; pages = length self.now.states.now; fragments = length self.now.fragments.now } }
    {
        Budget {
            segment,
            body,
            order,
            pages: self.states.len(),
            fragments: self.fragments.len(),
        }
    }

    // Leaves no pages, and clears both tables.
    pub(crate) fn clear(&mut self)
        ensures cleared { Cleared self.new }
        ensures pages { flat self.new ≡ [] }
        ensures kept { Kept 0 self.new }
        ensures tables { SameTables self.old self.new }
    {
        self.states.fill(PageState::Uninitialized);
        self.fragments.fill(BLANK);
        self.count = 0;
        self.used = 0;
        self.live = 0;
    }

    // Takes the pages of a well-formed snapshot.
    pub(crate) fn load(&mut self, given: &Snapshot<'_>)
        requires cleared { Cleared self.old }
        requires states { length given.now.pages.now ≤ length self.old.states.now }
        requires fragments { length given.now.fragments.now ≤ length self.old.fragments.now }
        ensures pages { (top : ℕ) → Given top given.now → flat self.new ≡ nested given.now.pages.now given.now.fragments.now }
        ensures kept { (top : ℕ) → Given top given.now → Kept top self.new }
        ensures tables { SameTables self.old self.new }
    {
        copy_to_front(self.states, given.pages);
        copy_to_front(self.fragments, given.fragments);
        self.count = given.pages.len();
        self.used = given.fragments.len();
        self.live = self.used;
    }

    // Puts the fragments in order, by page and then by LSN, and clears what is behind them.
    pub(crate) fn settle(&mut self)
        requires used { self.old.used ≤ length self.old.fragments.now }
        ensures settled { (top : ℕ) → Kept top self.old → Settled (flat self.old) self.new }
        ensures tables { SameTables self.old self.new }
    {
        self.compact();
        put_in_order(self.fragments, self.used);
    }

    // Whether a fragment belongs to a page as it is now.
    #[tactic(auto, unfolding(crate::specs::Flat::alive, crate::specs::Flat::newer))]
    fn is_alive(&self, fragment: Fragment) -> bool
        ensures { result ≡ alive self.now.states.now fragment }
    {
        match self.states.get(fragment.pid as usize) {
            Some(PageState::Present(base, _)) => base.0 < fragment.item.0,
            _ => false,
        }
    }

    // Moves the fragments that are alive to the front, in their order. In a method: no proof covers a call that both slices are lent to.
    fn compact(&mut self)
        requires { self.old.used ≤ length self.old.fragments.now }
        ensures { Compacted self.old self.new }
    {
        let used = self.used;
        let mut kept = 0;
        for i in 0..used {
            let fragment = self.fragments[i];
            if self.is_alive(fragment) {
                self.fragments[kept] = fragment;
                kept += 1;
            }
        }
        self.used = kept;
    }

    // Makes room for a fragment, where not every entry has one that is alive.
    fn make_room(&mut self)
        requires used { self.old.used ≤ length self.old.fragments.now }
        requires live { self.old.live < length self.old.fragments.now }
        ensures { (top : ℕ) → Kept top self.old → Roomy top self.old self.new }
    {
        if self.used == self.fragments.len() {
            self.compact();
        }
    }

    // Puts the state of a page in the place of what there was of it.
    fn renew(&mut self, pid: usize, state: PageState)
        requires pid { pid < length self.old.states.now }
        requires live { fragments_in (state_at self.old.states.now pid) ≤ self.old.live }
        ensures { self.new ≡ renewed self.old pid state }
    {
        self.live -= fragments_in(self.states[pid]);
        self.count = self.count.max(pid + 1);
        self.states[pid] = state;
    }

    // Puts a fragment behind those in use, and the state of its page anew.
    fn append(&mut self, fragment: Fragment, state: PageState)
        requires pid { fragment.pid < length self.old.states.now }
        requires used { self.old.used < length self.old.fragments.now }
        requires live { self.old.live < length self.old.fragments.now }
        ensures { self.new ≡ appended self.old fragment state }
    {
        self.states[fragment.pid as usize] = state;
        self.fragments[self.used] = fragment;
        self.used += 1;
        self.live += 1;
    }

    // Takes a link: it joins its page, if that is present.
    fn link(&mut self, r: Record) -> Result<(), Refusal>
        requires pid { r.pid < length self.old.states.now }
        requires kind { r.kind ≡ Link }
        requires kept { Kept r.lsn self.old }
        ensures reply { result ≡ verdict (length self.old.states.now) (length self.old.fragments.now) (flat self.old) r }
        ensures pages { OnOk result (flat self.new ≡ apply (flat self.old) r) }
        ensures kept { OnOk result (Kept (r.lsn + 1) self.new) }
        ensures refused { OnErr result (self.new ≡ self.old) }
        ensures tables { SameTables self.old self.new }
    {
        let PageState::Present(base, n) = self.states[r.pid as usize] else {
            return Ok(());
        };
        if self.live == self.fragments.len() {
            return Err(Refusal::Fragments(Some(place_of(r.ptr))));
        }
        self.make_room();
        let fragment = Fragment {
            pid: r.pid,
            item: item_of(r),
        };
        self.append(fragment, PageState::Present(base, n + 1));
        Ok(())
    }

    // Takes a record to the pages.
    pub(crate) fn apply(&mut self, r: Record) -> Result<(), Refusal>
        requires { Kept r.lsn self.old }
        ensures reply { result ≡ verdict (length self.old.states.now) (length self.old.fragments.now) (flat self.old) r }
        ensures pages { OnOk result (flat self.new ≡ apply (flat self.old) r) }
        ensures kept { OnOk result (Kept (r.lsn + 1) self.new) }
        ensures refused { OnErr result (self.new ≡ self.old) }
        ensures tables { SameTables self.old self.new }
    {
        let pid = r.pid as usize;
        if pid >= self.states.len() {
            return Err(Refusal::PageNumber(Some(place_of(r.ptr))));
        }
        match r.kind {
            LogKind::Replace => self.renew(pid, PageState::Present(item_of(r), 0)),
            LogKind::Free => self.renew(pid, PageState::Free(r.lsn, r.ptr)),
            LogKind::Link => self.link(r)?,
        }
        Ok(())
    }
}
