// The place of a key among entries with rising keys, by halves.
ghost use Rattle.std.specs.Prelude.{◌≡◌, true, length};
ghost use Rattle.std.specs.List.Sorted.{IsSearchInRange};
ghost use Rattle.tables.specs.Entries.{rising, Located};

use crate::entry::Entry;

// Where the key stands, or `Err` with the place where it would. It ends at a hit, where `binary_search_by_key` goes on until a
// single entry is left: a key in the middle is found at once, however many there are.
pub(crate) fn locate<V: Copy>(entries: &[Entry<V>], key: u64) -> Result<usize, usize>
    requires { rising entries.now ≡ true }
    ensures located { Located key entries.now result }
    ensures within { IsSearchInRange result (length entries.now) }
{
    let mut low = 0;
    let mut high = entries.len();
    while low < high {
        let mid = low + (high - low) / 2;
        let found = entries[mid].key;
        if found == key {
            return Ok(mid);
        }
        if found < key {
            low = mid + 1;
        } else {
            high = mid;
        }
    }
    Err(low)
}
