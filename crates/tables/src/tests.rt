// A table at its limits, over three types of values. Each test has one check and no `&&`: a proof pays for every way through.
use crate::entry::Entry;
use crate::fault::TableFault;
use crate::table::SortedTable;

// Where a file starts and how long it is.
#[derive(Clone, Copy)]
struct Extent(u64, u64);

// A kind, and whether the file is sound.
#[derive(Clone, Copy)]
struct Note(u8, bool);

#[test]
fn full_table(rt: HostRuntime) {
    let (key, value) = (9, 9u64);
    let mut buf = [Entry { key, value }; 2];
    let mut t = SortedTable::new(&mut buf, 0);
    let _ = t.insert(7, 70);
    let _ = t.insert(3, 30);
    let replaced = t.insert(3, 31).is_ok();
    let fault = t.insert(5, 50).err().map_or(0, TableFault::number);
    let found = t.find(5).is_some();
    let [a, b] = buf;
    assert!(rt;
        replaced & (fault == 11) & !found & ([a.key, a.value, b.key, b.value] == [3, 31, 7, 70])
    );
}

#[test]
fn freed_entry(rt: HostRuntime) {
    let (key, value) = (9, Note(9, true));
    let mut buf = [Entry { key, value }; 2];
    let mut t = SortedTable::new(&mut buf, Note(0, false));
    let none = t.remove_least().is_none();
    let _ = t.insert(8, Note(7, true));
    let _ = t.insert(5, Note(11, true));
    let least = t.remove_least().map_or(0, |e| e.key);
    let found = t.find(5).is_some() | t.find(0).is_some();
    let [a, b] = buf;
    let kept = (a.key == 8) & (a.value.0 == 7) & a.value.1;
    let freed = (b.key == 0) & (b.value.0 == 0) & !b.value.1;
    assert!(rt; none & (least == 5) & !found & kept & freed);
}

#[test]
fn sixty_four_entries(rt: HostRuntime) {
    let (key, value) = (9, Extent(9, 9));
    let mut buf = [Entry { key, value }; 64];
    let mut t = SortedTable::new(&mut buf, Extent(0, 0));
    for i in 0..64u64 {
        let _ = t.insert(i * 37 % 64, Extent(i, 1));
    }
    let mut good = t.insert(64, Extent(64, 1)).is_err();
    for k in 0..64u64 {
        good &= t
            .remove_least()
            .is_some_and(|e| (e.key == k) & (e.value.1 == 1));
        good &= t.find(k).is_none() & (t.find(63).is_some() == (k < 63));
    }
    assert!(rt; good & t.is_empty());
}
