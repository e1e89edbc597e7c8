use bodies::Plain;
use buffers::Buffer;
use byte_kinds::DecimalByteArray;
use columns::{Mode, Settings};
use intake::Batch;
use ints::Int32;
use level_data::LevelDataRef;
use levels::Packed;
use metrics::LevelHistogram;
use open_page::OpenPage;
use pages::Layout;
use std::process::Abort;

const NESTED: Layout = Layout {
    version: 1,
    max_rep_level: 1,
    max_def_level: 2,
    width: 4,
};

const FLAT: Layout = Layout {
    version: 2,
    max_rep_level: 0,
    max_def_level: 1,
    width: 4,
};

const DECIMALS: Layout = Layout {
    version: 1,
    max_rep_level: 0,
    max_def_level: 0,
    width: 0,
};

// Settings with these limits.
fn limits(row_limit: usize, size_limit: usize) -> Settings {
    Settings {
        version: 1,
        row_limit,
        size_limit,
        mode: Mode::Page,
        cut_length: None,
    }
}

// A page of four levels in two rows, with two INT32 values.
fn nested() -> OpenPage {
    let mut page = OpenPage::new::<Int32>(NESTED);
    let batch = Batch {
        count: 4,
        defs: LevelDataRef::Materialized(&[2, 1, 2, 1]),
        reps: LevelDataRef::Materialized(&[0, 1, 1, 0]),
        values: &[5, 7],
    };
    page.write_mini_batch::<Int32, i32>(NESTED, batch, 2);
    page
}

// Whether a value is there, and these are its bytes.
fn is(value: &Option<Buffer<128>>, bytes: &[u8]) -> bool {
    value.is_some_and(|v| v.as_slice() == bytes)
}

// Whether a histogram is there, and these are its counts.
fn has(histogram: Option<LevelHistogram>, counts: &[u64]) -> bool {
    histogram.is_some_and(|h| h.as_slice() == counts)
}

#[test]
fn an_empty_page(rt: HostRuntime) {
    let page = OpenPage::new::<Int32>(NESTED);
    assert_eq!(rt; page.level_count(), 0);
    assert!(rt; !page.is_due(limits(0, 0)));
    assert!(rt; page.min().is_none() && page.max().is_none());
    assert_eq!(rt; page.metrics().num_page_nulls, 0);
}

#[test]
fn a_nested_batch(rt: HostRuntime) {
    let page = nested();
    let counts = page.metrics();
    assert_eq!(rt; page.level_count(), 4);
    assert_eq!(rt; counts.num_buffered_values, 4);
    assert_eq!(rt; counts.num_buffered_rows, 2);
    assert_eq!(rt; counts.num_page_nulls, 2);
    assert_eq!(rt; counts.num_page_nans, None);
    assert!(rt; has(counts.repetition_level_histogram, &[2, 2]));
    assert!(rt; has(counts.definition_level_histogram, &[0, 2, 2]));
    assert!(rt; is(page.min(), b"\x05\0\0\0"));
    assert!(rt; is(page.max(), b"\x07\0\0\0"));
}

#[test]
fn its_bytes(rt: HostRuntime) {
    let bytes = [
        2, 0, 0, 0, 3, 6, 3, 0, 0, 0, 3, 0x66, 0, 5, 0, 0, 0, 7, 0, 0, 0,
    ];
    let page = nested();
    let mut out = [0xEEu8; 22];
    assert_eq!(rt; page.size::<Packed, Plain>(NESTED), Some(21));
    assert_eq!(rt;
        page.assemble::<Packed, Plain>(NESTED, &mut out[..20]),
        None
    );
    assert!(rt; out.iter().all(|b| *b == 0xEE));
    assert_eq!(rt; page.assemble::<Packed, Plain>(NESTED, &mut out), Some(21));
    assert!(rt; out.starts_with(&bytes) && out[21] == 0xEE);
}

#[test]
fn due_at_the_limits(rt: HostRuntime) {
    let page = nested();
    assert!(rt; page.is_due(limits(2, 9)));
    assert!(rt; page.is_due(limits(3, 8)));
    assert!(rt; !page.is_due(limits(3, 9)));
}

#[test]
fn repeated_levels(rt: HostRuntime) {
    let mut page = OpenPage::new::<Int32>(FLAT);
    let full = Batch {
        count: 3,
        defs: LevelDataRef::uniform(1, 3),
        reps: LevelDataRef::absent(),
        values: &[9, -4, 6, 1],
    };
    let empty = Batch {
        count: 2,
        defs: LevelDataRef::uniform(0, 2),
        reps: LevelDataRef::absent(),
        values: &[],
    };
    page.write_mini_batch::<Int32, i32>(FLAT, full, 3);
    page.write_mini_batch::<Int32, i32>(FLAT, empty, 0);
    let counts = page.metrics();
    assert_eq!(rt; page.level_count(), 5);
    assert_eq!(rt; counts.num_buffered_rows, 5);
    assert_eq!(rt; counts.num_page_nulls, 2);
    assert!(rt; counts.repetition_level_histogram.is_none());
    assert!(rt; has(counts.definition_level_histogram, &[2, 3]));
    assert!(rt; is(page.min(), b"\xFC\xFF\xFF\xFF"));
    assert!(rt; is(page.max(), b"\x09\0\0\0"));
}

// Adds decimals to a page.
fn add(page: &mut OpenPage, values: &[&[u8]]) {
    let batch = Batch {
        count: values.len(),
        defs: LevelDataRef::absent(),
        reps: LevelDataRef::absent(),
        values,
    };
    page.write_mini_batch::<DecimalByteArray, &[u8]>(DECIMALS, batch, values.len());
}

// Of decimals that stand for one number the first is kept, in a batch and over batches.
#[test]
fn the_first_of_ties(rt: HostRuntime) {
    let mut page = OpenPage::new::<DecimalByteArray>(DECIMALS);
    add(&mut page, &[b"\x00\x05", b"\x05"]);
    add(&mut page, &[b"\x00\x00\x05"]);
    assert!(rt; is(page.min(), b"\x00\x05"));
    assert!(rt; is(page.max(), b"\x00\x05"));
    add(&mut page, &[b"\x04", b"\x06"]);
    assert!(rt; is(page.min(), b"\x04"));
    assert!(rt; is(page.max(), b"\x06"));
}
