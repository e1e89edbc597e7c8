use entries::{Entry, EntryTable};

// The entry of a page at an offset.
fn entry(offset: usize) -> Entry {
    Entry {
        offset,
        size: 10,
        levels: 1,
        first_row: 0,
        marks: None,
    }
}

#[test]
fn sixty_four_entries_and_no_more(rt: HostRuntime) {
    let mut table = EntryTable::new();
    for k in 0..64 {
        assert_eq!(rt; table.len(), k);
        assert_eq!(rt; table.push(entry(k)), Some(()));
    }
    assert_eq!(rt; table.push(entry(64)), None);
    assert_eq!(rt; table.len(), 64);
    assert_eq!(rt; table.get(0), Some(entry(0)));
    assert_eq!(rt; table.get(63), Some(entry(63)));
    assert_eq!(rt; table.get(64), None);
}

#[test]
fn equal_by_their_entries(rt: HostRuntime) {
    let mut table = EntryTable::new();
    let mut other = EntryTable::new();
    assert_eq!(rt; table.push(entry(4)), Some(()));
    assert!(rt; table != other);
    assert_eq!(rt; other.push(entry(4)), Some(()));
    assert!(rt; table == other);
}
