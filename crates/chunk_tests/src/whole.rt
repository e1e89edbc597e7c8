// Whole chunks of lists, byte for byte, with their entries and records. Calls that are refused come between the others.
use crate::helper::{Stage, done, limits, nested, place, refusal, says};
use areas::Place;
use bodies::{Plain, Split};
use body_coder::BodyCoder;
use columns::{Mode, Settings};
use entries::{Entry, Marks};
use intake::Batch;
use ints::Int32;
use ledger::BoundaryOrder;
use level_coder::LevelCoder;
use level_data::LevelDataRef;
use levels::{Legacy, Packed};
use packed::PackedSink;
use page_log::Order;
use sinks::{Fault, Layer, PageSink, SinkFault};
use slotted::SlottedSink;
use std::process::Abort;

type Lists<L, B, S> = Stage<Int32, L, B, S>;

fn list<'a>(defs: &'a [i16], reps: &'a [i16], values: &'a [i32]) -> Batch<'a, i32> {
    Batch {
        count: defs.len(),
        defs: LevelDataRef::Materialized(defs),
        reps: LevelDataRef::Materialized(reps),
        values,
    }
}

// A call of each kind that is refused while a chunk is open, with this page in the scratch.
fn refuses<A: Abort, L: LevelCoder, B: BodyCoder, S: PageSink>(
    rt: &A,
    chunk: &mut Lists<L, B, S>,
    front: &[u8],
) {
    let few = list(&[2, 2], &[0, 1], &[8]);
    let short = says(3, Layer::Page, 0);
    assert_eq!(rt; refusal(chunk.batch(few)), says(9, Layer::Chunk, 0));
    assert_eq!(rt; refusal(chunk.cut_short()), short);
    assert_eq!(rt; refusal(chunk.close_short()), short);
    assert_eq!(rt; refusal(chunk.record()), says(26, Layer::Chunk, 0));
    assert_eq!(rt; refusal(chunk.entry(64)), says(27, Layer::Page, 0));
    assert!(rt; chunk.has(front));
}

// Three pages: two that are due by their two rows, and one of a null.
fn filled<A: Abort, L: LevelCoder, B: BodyCoder, S: PageSink>(
    rt: &A,
    version: u8,
    pages: [&[u8]; 3],
    sink: S,
) -> Lists<L, B, S> {
    let settings = Settings {
        version,
        ..limits(2, 4096)
    };
    let mut chunk = Lists::<L, B, S>::open(nested(4), settings, sink);
    refuses(rt, &mut chunk, &[]);
    let first = list(&[2, 1, 2, 1], &[0, 1, 1, 0], &[5, 7]);
    assert_eq!(rt; chunk.batch(first), done(2, 1, 0));
    refuses(rt, &mut chunk, pages[0]);
    assert_eq!(rt; chunk.batch(list(&[0], &[0], &[])), done(0, 0, 0));
    refuses(rt, &mut chunk, pages[0]);
    assert_eq!(rt;
        chunk.batch(list(&[2, 2], &[0, 1], &[-1, 4, 9])),
        done(2, 1, 0)
    );
    refuses(rt, &mut chunk, pages[1]);
    assert_eq!(rt; chunk.batch(list(&[1], &[0], &[])), done(0, 0, 0));
    assert_eq!(rt; chunk.close(), Ok(1));
    chunk
}

// Whether marks say this of a page: its bounds, its nulls and its level counts.
fn marks_are(
    marks: &Marks,
    min: &[u8],
    max: &[u8],
    nulls: u64,
    reps: &[u64],
    defs: &[u64],
) -> bool {
    marks.null_page == min.is_empty()
        && marks.min.bytes.as_slice() == min
        && marks.max.bytes.as_slice() == max
        && !marks.min.is_cut
        && !marks.max.is_cut
        && marks.null_count == nulls
        && marks.nan_count.is_none()
        && marks
            .repetition_level_histogram
            .is_some_and(|h| h.as_slice() == reps)
        && marks
            .definition_level_histogram
            .is_some_and(|h| h.as_slice() == defs)
}

// Checks where the pages lie.
fn has_places<A: Abort, L: LevelCoder, B: BodyCoder, S: PageSink>(
    rt: &A,
    chunk: &Lists<L, B, S>,
    places: [(usize, usize); 3],
) {
    let rest = [(4, 0), (3, 2), (1, 4)];
    for k in 0..3 {
        let (offset, size) = places[k];
        let (levels, first_row) = rest[k];
        assert_eq!(rt;
            place(chunk.entry(k)),
            Some((offset, size, levels, first_row))
        );
    }
    assert_eq!(rt; refusal(chunk.entry(3)), says(27, Layer::Page, 0));
}

// Checks the marks of the pages.
fn has_marks<A: Abort, L: LevelCoder, B: BodyCoder, S: PageSink>(rt: &A, chunk: &Lists<L, B, S>) {
    let cases: [(&[u8], &[u8], u64, [u64; 2], [u64; 3]); 3] = [
        (&[5, 0, 0, 0], &[7, 0, 0, 0], 2, [2, 2], [0, 2, 2]),
        (&[0xFF; 4], &[4, 0, 0, 0], 1, [2, 1], [1, 0, 2]),
        (&[], &[], 1, [1, 0], [0, 1, 0]),
    ];
    for (k, (min, max, nulls, reps, defs)) in cases.iter().enumerate() {
        let marks = chunk.entry(k).ok().and_then(|entry| entry.marks);
        assert!(rt;
            marks.is_some_and(|m| marks_are(&m, min, max, *nulls, reps, defs)),
            "page {k}"
        );
    }
}

// Checks the record of the three pages, in so many bytes.
fn has_record<A: Abort, L: LevelCoder, B: BodyCoder, S: PageSink>(
    rt: &A,
    chunk: &Lists<L, B, S>,
    bytes: u64,
) {
    let Ok(record) = chunk.record() else {
        assert!(rt; false, "no record");
        return;
    };
    assert_eq!(rt; (record.rows, record.levels, record.nulls), (5, 8, 4));
    assert_eq!(rt; (record.nans, record.bytes), (0, bytes));
    assert!(rt;
        record
            .repetition_level_histogram
            .is_some_and(|h| h.as_slice() == [5, 3].as_slice())
    );
    assert!(rt;
        record
            .definition_level_histogram
            .is_some_and(|h| h.as_slice() == [1, 3, 4].as_slice())
    );
    assert!(rt;
        record
            .min
            .is_some_and(|v| v.as_slice() == [0xFF; 4].as_slice())
    );
    assert!(rt;
        record
            .max
            .is_some_and(|v| v.as_slice() == [7, 0, 0, 0].as_slice())
    );
    let order = Order {
        ascending: false,
        descending: true,
        boundary: BoundaryOrder::Descending,
    };
    assert_eq!(rt; record.order, Some(order));
}

// Whether an area is these parts one behind the other.
fn is_made_of(area: &[u8], parts: &[&[u8]]) -> bool {
    let mut rest = area;
    for part in parts {
        let Some(behind) = rest.strip_prefix(*part) else {
            return false;
        };
        rest = behind;
    }
    rest.is_empty()
}

#[test]
fn packed_and_plain(rt: HostRuntime) {
    let mut area = [7; 64];
    let mut table = [Place { offset: 9, len: 9 }; 4];
    let pages: [&[u8]; 3] = [
        &[
            2, 0, 0, 0, 3, 6, 3, 0, 0, 0, 3, 0x66, 0, 5, 0, 0, 0, 7, 0, 0, 0,
        ],
        &[
            2, 0, 0, 0, 3, 4, 3, 0, 0, 0, 3, 0x28, 0, 0xFF, 0xFF, 0xFF, 0xFF, 4, 0, 0, 0,
        ],
        &[2, 0, 0, 0, 3, 0, 3, 0, 0, 0, 3, 1, 0],
    ];
    let sink = PackedSink::new(&mut area, &mut table);
    let chunk = filled::<HostRuntime, Packed, Plain, PackedSink>(&rt, 1, pages, sink);
    has_places(&rt, &chunk, [(4, 21), (25, 21), (46, 13)]);
    has_marks(&rt, &chunk);
    has_record(&rt, &chunk, 55);
    let (area, table) = chunk.into_sink().into_parts();
    let parts: [&[u8]; 5] = [b"PAR1", pages[0], pages[1], pages[2], &[7; 5]];
    assert!(rt; is_made_of(area, &parts));
    let pair = |offset, len| Place { offset, len };
    assert_eq!(rt;
        &table[..],
        [pair(4, 21), pair(25, 21), pair(46, 13), pair(9, 9)].as_slice()
    );
}

#[test]
fn packed_and_split_in_version_2(rt: HostRuntime) {
    let mut area = [7; 36];
    let mut table = [Place { offset: 9, len: 9 }; 3];
    let pages: [&[u8]; 3] = [
        &[3, 6, 3, 0x66, 0, 5, 7, 0, 0, 0, 0, 0, 0],
        &[3, 4, 3, 0x28, 0, 0xFF, 4, 0xFF, 0, 0xFF, 0, 0xFF, 0],
        &[3, 0, 3, 1, 0],
    ];
    let sink = PackedSink::new(&mut area, &mut table);
    let chunk = filled::<HostRuntime, Packed, Split, PackedSink>(&rt, 2, pages, sink);
    has_places(&rt, &chunk, [(4, 13), (17, 13), (30, 5)]);
    has_marks(&rt, &chunk);
    has_record(&rt, &chunk, 31);
    let (area, _) = chunk.into_sink().into_parts();
    let parts: [&[u8]; 5] = [b"PAR1", pages[0], pages[1], pages[2], &[7]];
    assert!(rt; is_made_of(area, &parts));
}

#[test]
fn legacy_and_split(rt: HostRuntime) {
    let mut area = [7; 36];
    let pages: [&[u8]; 3] = [
        &[0x60, 0x99, 5, 7, 0, 0, 0, 0, 0, 0],
        &[0x20, 0x28, 0xFF, 4, 0xFF, 0, 0xFF, 0, 0xFF, 0],
        &[0, 0x40],
    ];
    let sink = SlottedSink::new(&mut area);
    let chunk = filled::<HostRuntime, Legacy, Split, SlottedSink>(&rt, 1, pages, sink);
    has_places(&rt, &chunk, [(0, 10), (10, 10), (20, 2)]);
    has_marks(&rt, &chunk);
    has_record(&rt, &chunk, 22);
    let area = chunk.into_sink().into_area();
    let pairs: &[u8] = &[20, 0, 2, 0, 10, 0, 10, 0, 0, 0, 10, 0];
    let parts: [&[u8]; 5] = [pages[0], pages[1], pages[2], &[7; 2], pairs];
    assert!(rt; is_made_of(area, &parts));
}

// The sink's own check is there to be asked before and after.
#[test]
fn an_area_that_is_checked(rt: HostRuntime) {
    let mut area = [7; 3];
    let sink = SlottedSink::new(&mut area);
    let chunk = Lists::<Packed, Plain, SlottedSink>::open(nested(4), limits(2, 4096), sink);
    assert_eq!(rt; chunk.sink().check(), Err(SinkFault::Area));
    let area = chunk.into_sink().into_area();
    let mut table = [Place { offset: 9, len: 9 }; 1];
    let sink = PackedSink::new(area, &mut table);
    let chunk = Lists::<Packed, Plain, PackedSink>::open(nested(4), limits(2, 4096), sink);
    assert_eq!(rt;
        chunk.sink().check().err().map(|fault| fault.said()),
        says(12, Layer::Sink, 0)
    );
    let (area, _) = chunk.into_sink().into_parts();
    assert_eq!(rt; &*area, [7; 3].as_slice());
}

// Chunk mode keeps neither marks nor an order.
#[test]
fn offsets_alone(rt: HostRuntime) {
    let mut area = [7; 64];
    let settings = Settings {
        mode: Mode::Chunk,
        ..limits(1, 4096)
    };
    let mut chunk = Lists::<Packed, Plain, SlottedSink>::open(
        nested(4),
        settings,
        SlottedSink::new(&mut area),
    );
    assert_eq!(rt; chunk.batch(list(&[2], &[0], &[5])), done(1, 1, 0));
    assert_eq!(rt; chunk.close(), Ok(0));
    let entry = Entry {
        offset: 0,
        size: 17,
        levels: 1,
        first_row: 0,
        marks: None,
    };
    assert_eq!(rt; chunk.entry(0), Ok(entry));
    assert!(rt;
        chunk
            .record()
            .is_ok_and(|record| record.order.is_none() && record.bytes == 17)
    );
}
