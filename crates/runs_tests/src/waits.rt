// Runs in which a due page waits, since the sink does not take it: one for its area, the other for its table.
use crate::helper::{
    batch, close, cut, ended, has_answers, has_no_record, has_places, is_made_of, limits, refused,
    run_both, took, unended, values_only,
};
use areas::Place;
use bodies::{Plain, Split};
use buffers::Buffer;
use byte_kinds::FixedLenByteArray;
use columns::Column;
use level_data::LevelDataRef;
use levels::{Legacy, Packed};
use packed::PackedSink;
use pages::PageFault;
use refusals::ChunkFault;
use runs::Played;
use sinks::SinkFault;
use slotted::SlottedSink;
use std::process::Abort;

// Values of three bytes that are all there.
const TRIPLES: Column = Column {
    width: 3,
    max_def_level: 0,
    max_rep_level: 0,
};

// What is refused of a page of so many bytes.
fn full(len: usize) -> ChunkFault {
    ChunkFault::Page(PageFault::Sink(SinkFault::Full(len)))
}

// No page: a slotted sink takes one of 6 bytes in an area of 10.
fn area_calls<'a>() -> [Played<'a, &'a [u8]>; 7] {
    let none = LevelDataRef::absent();
    [
        values_only(&[b"abc"]),
        values_only(&[b"def"]),
        values_only(&[b"ghi"]),
        cut(),
        close(),
        batch(257, none, none, &[]),
        close(),
    ]
}

fn answers_area<A: Abort>(rt: &A, calls: &[Played<&[u8]>]) {
    let answers = [
        (took(1, 0, 0), 0),
        (took(1, 0, 25), 0),
        (refused(ChunkFault::PageWaits), 22),
        (unended(full(6)), 25),
        (unended(full(6)), 25),
        (refused(ChunkFault::PageWaits), 22),
        (unended(full(6)), 25),
    ];
    has_answers(rt, calls, &answers);
}

// One page, for which the table has room. A close that is refused before the next one is due leaves the chunk open.
fn table_calls<'a>(values: &'a [Buffer<128>; 4]) -> [Played<'a, Buffer<128>>; 8] {
    let values = &values[..];
    [
        values_only(&values[..2]),
        cut(),
        values_only(&values[2..3]),
        close(),
        values_only(&values[3..]),
        values_only(values),
        cut(),
        close(),
    ]
}

fn answers_table<A: Abort>(rt: &A, calls: &[Played<Buffer<128>>]) {
    let answers = [
        (took(2, 1, 0), 0),
        (ended(0), 0),
        (took(1, 0, 0), 0),
        (unended(full(3)), 25),
        (took(1, 0, 25), 0),
        (refused(ChunkFault::PageWaits), 22),
        (unended(full(6)), 25),
        (unended(full(6)), 25),
    ];
    has_answers(rt, calls, &answers);
}

fn triple(bytes: &[u8; 3]) -> Buffer<128> {
    let mut triple = Buffer::new();
    let _ = triple.extend(bytes);
    triple
}

// Checks what is left: no byte of a page that waits, and one page, which has its values by streams of bytes.
fn left<A: Abort>(rt: &A, area: &[u8], other_area: &[u8], table: &[Place], scratch: &[u8]) {
    assert!(rt; area.len() == 9 && is_made_of(area, &[], 7));
    assert!(rt; other_area.len() == 64 && is_made_of(other_area, &[b"PAR1", b"adbecf"], 7));
    assert_eq!(rt; table, [Place { offset: 4, len: 6 }].as_slice());
    assert!(rt; scratch.len() == 9227 && is_made_of(scratch, &[b"adbecf"], 0xEE));
}

// A page that the sink does not take waits in the chunk, and nothing of it is written.
#[test]
fn pages_that_wait(rt: HostRuntime) {
    let mut area = [7; 9];
    let mut other_area = [7; 64];
    let mut table = [Place { offset: 9, len: 9 }; 1];
    let mut scratch = [0xEE; 9227];
    let values = [
        triple(b"abc"),
        triple(b"def"),
        triple(b"ghi"),
        triple(b"jkl"),
    ];
    let mut calls = area_calls();
    let mut other_calls = table_calls(&values);
    let (run, other) = run_both::<
        FixedLenByteArray,
        Packed,
        Plain,
        SlottedSink,
        &[u8],
        Legacy,
        Split,
        PackedSink,
        Buffer<128>,
    >(
        TRIPLES,
        limits(2, 4096),
        SlottedSink::new(&mut area),
        &mut calls,
        limits(2, 4096),
        PackedSink::new(&mut other_area, &mut table),
        &mut other_calls,
        &mut scratch,
    );
    answers_area(&rt, &calls);
    answers_table(&rt, &other_calls);
    has_no_record(&rt, run.record);
    has_no_record(&rt, other.record);
    has_places(&rt, &run.entries, &[]);
    has_places(&rt, &other.entries, &[(4, 6, 2, 0)]);
    let (other_area, table) = other.chunk.into_sink().into_parts();
    left(
        &rt,
        run.chunk.into_sink().into_area(),
        other_area,
        table,
        &scratch,
    );
}
