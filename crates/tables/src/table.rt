// The table, and what holds of it between calls.
ghost use Rattle.std.specs.Prelude.{◌≡◌, ◌≤◌, true, length, take};
ghost use Rattle.std.specs.Coded.{Coded-set};
ghost use Rattle.tables.specs.Entries.{rising, laid, entries_code};

use crate::entry::Entry;

// A finite map by key over a lent slice of entries: the first `len` are in use, in rising order of key, and the rest are blank.
// A vector or a map would allocate, and no call may.
#[derive(Drop)]
pub struct SortedTable<'a, V: Copy> {
    pub(crate) entries: &'a mut [Entry<V>],
    pub(crate) len: usize,
    pub(crate) blank: V,
    pub ghost within: { len ≤ length entries.now },
    pub ghost ordered: { rising (take len entries.now) ≡ true },
    pub ghost clean: { entries.now ≡ laid (length entries.now) blank (take len entries.now) } by { Coded-set (entries_code V.code) entries.now (laid (length entries.now) blank (take len entries.now)) },
}
