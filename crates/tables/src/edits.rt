// What changes a table: its making, an insert, the removal of its least key, and of all.
ghost use Rattle.std.specs.Prelude.{◌≡◌, [], length, drop, replicate, is_ok, if◌then◌else◌};
ghost use Rattle.std.specs.List.{slice_get};
ghost use Rattle.tables.specs.Entries.{put};
ghost use Rattle.tables.specs.Faults.{reply};
ghost use Rattle.tables.specs.Views.{contents, capacity, Same};

use crate::entry::Entry;
use crate::fault::TableFault;
use crate::table::SortedTable;

// Makes every entry blank. Not by `fill`, which asks of V that its `clone` cannot fail, nor by `fill_with`, by which more values
// stand on the stack.
fn blank_all<V: Copy>(entries: &mut [Entry<V>], blank: Entry<V>)
    ensures { entries.new ≡ replicate (length entries.old) blank }
{
    for entry in entries.iter_mut() {
        *entry = blank;
    }
}

impl<'a, V: Copy> SortedTable<'a, V> {
    // An empty table over the slice, each entry of which becomes key 0 with the value `blank`.
    pub fn new(entries: &'a mut [Entry<V>], blank: V) -> SortedTable<'a, V>
        ensures contents { contents result ≡ [] }
        ensures size { capacity result ≡ length entries.old }
        ensures blank { result.blank ≡ blank }
        ensures lender { result.entries.ghost_name ≡ entries.entry.ghost_name }
    {
        blank_all(
            entries,
            Entry {
                key: 0,
                value: blank,
            },
        );
        SortedTable {
            entries,
            len: 0,
            blank,
        }
    }

    // Puts `value` at `key`, in the place of what was there. A new key is refused where no entry is spare, and then nothing changes.
    pub fn insert(&mut self, key: u64, value: V) -> Result<(), TableFault>
        ensures reply { result ≡ reply (capacity self.old) key (contents self.old) }
        ensures contents { contents self.new ≡ (if is_ok result then put (record { key = key; value = value }) (contents self.old) else contents self.old) }
        ensures same { Same self.old self.new }
    {
        let n = self.len;
        let entry = Entry { key, value };
        match self.place(key) {
            Ok(at) => self.entries[at] = entry,
            Err(at) => {
                if n == self.entries.len() {
                    return Err(TableFault::Full);
                }
                // In between the keys do not rise, so the slice is written apart from the table.
                let entries = &mut *self.entries;
                entries[n] = entry;
                entries[at..=n].rotate_right(1);
                self.len = n + 1;
            }
        }
        Ok(())
    }

    // Takes the entry with the least key out, and makes the place that it frees blank.
    pub fn remove_least(&mut self) -> Option<Entry<V>>
        ensures reply { result ≡ slice_get (contents self.old) 0 }
        ensures contents { contents self.new ≡ drop 1 (contents self.old) }
        ensures same { Same self.old self.new }
    {
        let least = self.get(0)?;
        let n = self.len;
        let blank = Entry {
            key: 0,
            value: self.blank,
        };
        let entries = &mut *self.entries;
        entries[..n].rotate_left(1);
        entries[n - 1] = blank;
        self.len = n - 1;
        Some(least)
    }

    // Takes every key out: each entry of the slice becomes blank.
    pub fn clear(&mut self)
        ensures contents { contents self.new ≡ [] }
        ensures same { Same self.old self.new }
    {
        let blank = Entry {
            key: 0,
            value: self.blank,
        };
        blank_all(self.entries, blank);
        self.len = 0;
    }
}
