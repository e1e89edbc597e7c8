// Runs without a record: of a chunk that was not closed, and of openings that are refused.
use crate::helper::{
    batch, close, cut, ended, has_answers, has_no_record, has_places, is_histogram, is_made_of,
    is_value, limits, refused, run_both, took, unended, values_only,
};
use areas::Place;
use bodies::Plain;
use byte_kinds::Utf8String;
use columns::{Column, Mode, Settings, check};
use entries::{Entry, EntryTable};
use ints::Int32;
use ledger::BoundaryOrder;
use level_data::LevelDataRef;
use levels::{Legacy, Packed};
use packed::PackedSink;
use page_log::{Order, Record};
use refusals::ChunkFault;
use runs::Played;
use sinks::{Fault, Layer};
use slotted::SlottedSink;
use std::process::Abort;

const TEXTS: Column = Column {
    width: 0,
    max_def_level: 1,
    max_rep_level: 0,
};

fn texts<'a, V>(defs: &'a [i16], values: &'a [V]) -> Played<'a, V> {
    batch(
        defs.len(),
        LevelDataRef::Materialized(defs),
        LevelDataRef::absent(),
        values,
    )
}

// Two pages for a limit of two rows, and none for the close.
fn closed_calls<'a>() -> [Played<'a, &'a str>; 4] {
    [
        texts(&[1, 0], &["pear"]),
        texts(&[1], &[]),
        texts(&[1, 1, 0], &["apple", "fig"]),
        close(),
    ]
}

fn answers_closed<A: Abort>(rt: &A, calls: &[Played<&str>]) {
    let answers = [
        (took(1, 1, 0), 0),
        (refused(ChunkFault::FewValues), 9),
        (took(2, 1, 0), 0),
        (ended(0), 0),
    ];
    has_answers(rt, calls, &answers);
}

// Two pages: one for a limit of 17 plain bytes, which texts of 4 and 5 bytes have with their lengths, and one cut. A null
// stays in the open page.
fn open_calls<'a>() -> [Played<'a, &'a [u8]>; 6] {
    [
        texts(&[1, 0, 1], &[b"pear", b"apple"]),
        texts(&[1, 0], &[b"fig"]),
        texts(&[2], &[]),
        cut(),
        cut(),
        texts(&[0], &[]),
    ]
}

fn answers_open<A: Abort>(rt: &A, calls: &[Played<&[u8]>]) {
    let answers = [
        (took(2, 1, 0), 0),
        (took(1, 0, 0), 0),
        (refused(ChunkFault::LevelRange(0)), 7),
        (ended(1), 0),
        (ended(0), 0),
        (took(0, 0, 0), 0),
    ];
    has_answers(rt, calls, &answers);
}

// Whether a page has one null, so many texts, and these bounds, which are both cut.
fn is_marked(entry: &Entry, min: &[u8], max: &[u8], values: u64) -> bool {
    let Some(marks) = &entry.marks else {
        return false;
    };
    !marks.null_page
        && marks.min.bytes.as_slice() == min
        && marks.max.bytes.as_slice() == max
        && marks.min.is_cut
        && marks.max.is_cut
        && marks.null_count == 1
        && marks.nan_count.is_none()
        && marks.repetition_level_histogram.is_none()
        && is_histogram(&marks.definition_level_histogram, &[1, values])
}

// The pages of the closed chunk: two bytes of the smallest text, and of the largest with the second raised by one.
fn has_closed<A: Abort>(rt: &A, entries: &EntryTable) {
    has_places(rt, entries, &[(0, 10, 2, 0), (10, 18, 3, 2)]);
    let (first, second) = (entries.get(0), entries.get(1));
    assert!(rt; first.is_some_and(|entry| is_marked(&entry, b"pe", b"pf", 1)));
    assert!(rt; second.is_some_and(|entry| is_marked(&entry, b"ap", b"fj", 2)));
}

// The pages of the chunk that was not closed, of which no marks are kept.
fn has_open<A: Abort>(rt: &A, entries: &EntryTable) {
    has_places(rt, entries, &[(4, 18, 3, 0), (22, 8, 2, 3)]);
    let (first, second) = (entries.get(0), entries.get(1));
    assert!(rt; first.is_some_and(|entry| entry.marks.is_none()));
    assert!(rt; second.is_some_and(|entry| entry.marks.is_none()));
}

// Checks the record of the closed chunk, whose smallest and largest text are whole.
fn has_record<A: Abort>(rt: &A, record: Result<Record, ChunkFault>) {
    let Ok(record) = record else {
        assert!(rt; false, "no record");
        return;
    };
    assert_eq!(rt;
        (record.rows, record.levels, record.nulls, record.nans),
        (5, 5, 2, 0)
    );
    assert!(rt; record.repetition_level_histogram.is_none());
    assert!(rt; is_histogram(&record.definition_level_histogram, &[2, 3]));
    assert!(rt; is_value(&record.min, b"apple") && is_value(&record.max, b"pear"));
    assert_eq!(rt; record.bytes, 28);
    let descending = Order {
        ascending: false,
        descending: true,
        boundary: BoundaryOrder::Descending,
    };
    assert_eq!(rt; record.order, Some(descending));
}

// Levels in version 2 have no length before them, but the number 3 of one group. The first has the lowest bit.
const CLOSED: [&[u8]; 2] = [
    b"\x03\x01\x04\0\0\0pear",
    b"\x03\x03\x05\0\0\0apple\x03\0\0\0fig",
];

// The levels' bits, of which the first has the highest.
const OPEN: [&[u8]; 2] = [b"\xA0\x04\0\0\0pear\x05\0\0\0apple", b"\x80\x03\0\0\0fig"];

// Checks what is left of the sink of the closed chunk: four bytes between the pages and their pairs are as they were.
fn left_closed<A: Abort>(rt: &A, area: &[u8]) {
    let pairs: &[u8] = &[10, 0, 18, 0, 0, 0, 10, 0];
    assert_eq!(rt; area.len(), 40);
    assert!(rt; is_made_of(area, &[CLOSED[0], CLOSED[1], &[7; 4], pairs], 7));
}

// Checks what is left of the other sink and of the scratch.
fn left_open<A: Abort>(rt: &A, area: &[u8], table: &[Place], scratch: &[u8]) {
    assert_eq!(rt; area.len(), 34);
    assert!(rt; is_made_of(area, &[b"PAR1", OPEN[0], OPEN[1]], 7));
    let pair = |offset, len| Place { offset, len };
    assert_eq!(rt; table, [pair(4, 18), pair(22, 8), pair(9, 9)].as_slice());
    assert_eq!(rt; scratch.len(), 9227);
    assert!(rt; is_made_of(scratch, &[OPEN[1], &OPEN[0][8..]], 0xEE));
}

// A chunk that is not closed has no record, but an entry for each page that was written.
#[test]
fn without_a_close(rt: HostRuntime) {
    let mut area = [7; 40];
    let mut other_area = [7; 34];
    let mut table = [Place { offset: 9, len: 9 }; 3];
    let mut scratch = [0xEE; 9227];
    let mut calls = closed_calls();
    let mut other_calls = open_calls();
    let settings = Settings {
        version: 2,
        cut_length: Some(2),
        ..limits(2, 4096)
    };
    let other_settings = Settings {
        mode: Mode::Chunk,
        ..limits(512, 17)
    };
    let (run, other) = run_both::<
        Utf8String,
        Packed,
        Plain,
        SlottedSink,
        &str,
        Legacy,
        Plain,
        PackedSink,
        &[u8],
    >(
        TEXTS,
        settings,
        SlottedSink::new(&mut area),
        &mut calls,
        other_settings,
        PackedSink::new(&mut other_area, &mut table),
        &mut other_calls,
        &mut scratch,
    );
    answers_closed(&rt, &calls);
    answers_open(&rt, &other_calls);
    has_record(&rt, run.record);
    has_closed(&rt, &run.entries);
    has_no_record(&rt, other.record);
    has_open(&rt, &other.entries);
    left_closed(&rt, run.chunk.into_sink().into_area());
    let (area, table) = other.chunk.into_sink().into_parts();
    left_open(&rt, area, table, &scratch);
}

// A column of numbers that are all there.
const NUMBERS: Column = Column {
    width: 4,
    max_def_level: 0,
    max_rep_level: 0,
};

// Checks that an answer to settings is refusal 2.
fn refuses<A: Abort>(rt: &A, answer: Result<(), ChunkFault>) {
    let said = answer.err().map(|fault| fault.said());
    assert!(rt;
        said.is_some_and(|said| said.number == 2
            && said.layer == Layer::Chunk
            && said.position == 0)
    );
}

// Over settings that are refused a chunk refuses every call, and writes nothing.
#[test]
fn settings_that_are_refused(rt: HostRuntime) {
    let mut area = [7; 16];
    let mut table = [Place { offset: 9, len: 9 }; 1];
    let mut other_area = [7; 16];
    let mut scratch = [0xEE; 9227];
    let mut calls = [values_only(&[1]), values_only(&[]), cut(), close()];
    let mut other_calls = [close(), values_only(&[2, 3])];
    // Legacy in version 2, and pages of no rows
    let settings = Settings {
        version: 2,
        ..limits(1, 4096)
    };
    let other_settings = limits(0, 4096);
    refuses(&rt, check::<Int32, Legacy, Plain>(NUMBERS, settings));
    refuses(&rt, check::<Int32, Packed, Plain>(NUMBERS, other_settings));
    let (run, other) = run_both::<
        Int32,
        Legacy,
        Plain,
        PackedSink,
        i32,
        Packed,
        Plain,
        SlottedSink,
        i32,
    >(
        NUMBERS,
        settings,
        PackedSink::new(&mut area, &mut table),
        &mut calls,
        other_settings,
        SlottedSink::new(&mut other_area),
        &mut other_calls,
        &mut scratch,
    );
    let batched = (refused(ChunkFault::Closed), 21);
    let unended = (unended(ChunkFault::Closed), 21);
    has_answers(&rt, &calls, &[batched, batched, unended, unended]);
    has_answers(&rt, &other_calls, &[unended, batched]);
    has_no_record(&rt, run.record);
    has_no_record(&rt, other.record);
    has_places(&rt, &run.entries, &[]);
    has_places(&rt, &other.entries, &[]);
    let (area, table) = run.chunk.into_sink().into_parts();
    untouched(
        &rt,
        area,
        table,
        other.chunk.into_sink().into_area(),
        &scratch,
    );
}

// Checks that sinks and scratch are as they were, but for what making a packed sink wrote.
fn untouched<A: Abort>(rt: &A, area: &[u8], table: &[Place], other_area: &[u8], scratch: &[u8]) {
    assert!(rt; area.len() == 16 && is_made_of(area, &[b"PAR1"], 7));
    assert_eq!(rt; table, [Place { offset: 9, len: 9 }].as_slice());
    assert!(rt; other_area.len() == 16 && is_made_of(other_area, &[], 7));
    assert!(rt; scratch.len() == 9227 && is_made_of(scratch, &[], 0xEE));
}
