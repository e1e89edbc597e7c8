use crate::helper::{LAYOUT, buffer, counted};
use byte_kinds::ByteArray;
use columns::{Mode, Settings};
use entries::Entry;
use ledger::BoundaryOrder;
use page_log::{Order, PageLog};
use std::process::Abort;

const SETTINGS: Settings = Settings {
    version: 1,
    row_limit: 512,
    size_limit: 4096,
    mode: Mode::Page,
    cut_length: Some(2),
};

// Puts a page of one value, or of a null, behind the others.
fn put(log: &mut PageLog, value: Option<&[u8]>, offset: usize) -> Option<()> {
    let def = u8::from(value.is_some());
    log.add_data_page::<ByteArray>(
        SETTINGS,
        &counted(&[def]),
        &value.map(buffer),
        &value.map(buffer),
        offset,
        10,
    )
}

// Whether an entry is that of page k, each page having one row, with these bounds.
fn is_of(entry: &Entry, k: usize, offset: usize, lower: &[u8], upper: &[u8]) -> bool {
    let Some(marks) = &entry.marks else {
        return false;
    };
    entry.offset == offset
        && entry.size == 10
        && entry.levels == 1
        && entry.first_row == k as u64
        && marks.null_page == lower.is_empty()
        && marks.min.bytes.as_slice() == lower
        && marks.max.bytes.as_slice() == upper
}

// Checks the entry of page k.
fn has(rt: &impl Abort, log: &PageLog, k: usize, offset: usize, lower: &[u8], upper: &[u8]) {
    let entry = log.entry(k);
    assert!(rt; entry.is_some_and(|entry| is_of(&entry, k, offset, lower, upper)));
}

// The values ascend, while the upper cut of the first lies above the second.
#[test]
fn cut_bounds_out_of_order(rt: HostRuntime) {
    let mut log = PageLog::new(LAYOUT);
    assert_eq!(rt; put(&mut log, Some(&[0x61, 0xFF, 0xFF]), 4), Some(()));
    assert_eq!(rt; put(&mut log, Some(&[0x62]), 14), Some(()));
    assert_eq!(rt; log.len(), 2);
    has(&rt, &log, 0, 4, &[0x61, 0xFF], &[0x62, 0x00]);
    has(&rt, &log, 1, 14, &[0x62], &[0x62]);
    assert_eq!(rt; log.entry(2), None);
    let record = log.record(Mode::Page);
    assert_eq!(rt; record.rows, 2);
    assert_eq!(rt; record.levels, 2);
    assert_eq!(rt; record.nulls, 0);
    assert_eq!(rt; record.nans, 0);
    assert_eq!(rt; record.bytes, 20);
    assert_eq!(rt; record.min, Some(buffer(&[0x61, 0xFF, 0xFF])));
    assert_eq!(rt; record.max, Some(buffer(&[0x62])));
    let order = Order {
        ascending: true,
        descending: false,
        boundary: BoundaryOrder::Unordered,
    };
    assert_eq!(rt; record.order, Some(order));
    assert_eq!(rt; log.record(Mode::Chunk).order, None);
}

// A page without values between two others is passed over by the order.
#[test]
fn a_null_page_between(rt: HostRuntime) {
    let mut log = PageLog::new(LAYOUT);
    assert_eq!(rt; put(&mut log, Some(b"b"), 4), Some(()));
    assert_eq!(rt; put(&mut log, None, 14), Some(()));
    assert_eq!(rt; put(&mut log, Some(b"a"), 24), Some(()));
    has(&rt, &log, 1, 14, b"", b"");
    has(&rt, &log, 2, 24, b"a", b"a");
    let record = log.record(Mode::Page);
    assert_eq!(rt; record.nulls, 1);
    assert_eq!(rt; record.min, Some(buffer(b"a")));
    assert_eq!(rt; record.max, Some(buffer(b"b")));
    let order = Order {
        ascending: false,
        descending: true,
        boundary: BoundaryOrder::Descending,
    };
    assert_eq!(rt; record.order, Some(order));
}

#[test]
fn sixty_four_pages_and_no_more(rt: HostRuntime) {
    let mut log = PageLog::new(LAYOUT);
    for k in 0..64 {
        assert_eq!(rt; put(&mut log, Some(b"a"), k), Some(()));
    }
    assert_eq!(rt; put(&mut log, Some(b"b"), 64), None);
    assert_eq!(rt; log.len(), 64);
    has(&rt, &log, 63, 63, b"a", b"a");
    assert_eq!(rt; log.record(Mode::Page).max, Some(buffer(b"a")));
}
