// The block table of a cover: which block each entry covers.
ghost use Rattle.std.specs.Prelude.{◌≡◌, ◌<◌, ◌≤◌, min, length, replicate, IfSome, Some, None, slice_set};
ghost use Rattle.cover.specs.Entries.{entry_of, unmarked};

use std::marker::Model;

const ENTRIES: usize = 64;

// An entry names the block that it covers, or none. Only the first `live` entries are used: those with room in the cover.
// They are an array: making a cover allocates nothing.
#[derive(Drop)]
pub(crate) struct BlockTable {
    slots: [Option<u64>; ENTRIES],
    live: usize,
}

// The entries that are used.
impl Model for BlockTable {
    ghost use Rattle.std.specs.Prelude.{ℕ, ◌≤◌, List, Option, take};

    ghost Value = { List (Option ℕ) };

    ghost view = { λ t. take t.live t.slots };

    ghost invariant = { λ t. t.live ≤ 64 };
}

impl BlockTable {
    // As many entries as there is room for, at most 64, and no block covered.
    pub(crate) fn new(room: usize) -> BlockTable
        ensures { result ≡ replicate (min room 64) None }
    {
        BlockTable {
            slots: [None; ENTRIES],
            live: room.min(ENTRIES),
        }
    }

    fn entries(&self) -> &[Option<u64>]
        ensures { result.now ≡ self.now }
    {
        &self.slots[..self.live]
    }

    // The first entry that holds `wanted`.
    pub(crate) fn find(&self, wanted: Option<u64>) -> Option<usize>
        ensures value { result ≡ entry_of self.now wanted }
        ensures bound { IfSome result (λ i. i < length self.now) }
    {
        self.entries().iter().position(|e| *e == wanted)
    }

    pub(crate) fn unmarked(&self) -> usize
        ensures { result ≡ unmarked self.now }
    {
        // Counted here: by `filter` and `count` it takes twice as long.
        let entries = self.entries();
        let mut n = 0;
        for entry in entries {
            if entry.is_none() {
                n += 1;
            }
        }
        n
    }

    pub(crate) fn mark(&mut self, i: usize, block: u64)
        requires { i < length self.old }
        ensures { self.new ≡ slice_set self.old i (Some block) }
    {
        self.slots[..self.live][i] = Some(block);
    }
}
