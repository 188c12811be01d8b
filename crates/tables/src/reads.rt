// What a table answers without changing.
ghost use Rattle.std.specs.Prelude.{◌≡◌, length, ◌==◌};
ghost use Rattle.std.specs.List.{slice_get};
ghost use Rattle.std.specs.List.Sorted.{IsSearchInRange};
ghost use Rattle.tables.specs.Entries.{find, Located};
ghost use Rattle.tables.specs.Views.{contents, capacity};

use crate::entry::Entry;
use crate::places::locate;
use crate::table::SortedTable;

impl<'a, V: Copy> SortedTable<'a, V> {
    // The entries in use, in rising order of key.
    pub fn entries(&self) -> &[Entry<V>]
        ensures { result.now ≡ contents self.now }
    {
        &self.entries[..self.len]
    }

    // Where the key stands, or `Err` with the place where it would.
    pub(crate) fn place(&self, key: u64) -> Result<usize, usize>
        ensures located { Located key (contents self.now) result }
        ensures within { IsSearchInRange result self.now.len }
    {
        locate(self.entries(), key)
    }

    // How many keys it has.
    pub fn len(&self) -> usize
        ensures { result ≡ length (contents self.now) }
    {
        self.entries().len()
    }

    pub fn is_empty(&self) -> bool
        ensures { result ≡ (length (contents self.now) == 0) }
    {
        self.entries().is_empty()
    }

    // How many keys it has room for.
    pub fn capacity(&self) -> usize
        ensures { result ≡ capacity self.now }
    {
        self.entries.len()
    }

    // The value at the key.
    pub fn find(&self, key: u64) -> Option<V>
        ensures { result ≡ find key (contents self.now) }
    {
        let at = self.place(key).ok()?;
        Some(self.entries()[at].value)
    }

    // The entry in place `i`: in place 0 stands the least key, and no key stands past the last place.
    pub fn get(&self, i: usize) -> Option<Entry<V>>
        ensures { result ≡ slice_get (contents self.now) i }
    {
        self.entries().get(i).copied()
    }
}
