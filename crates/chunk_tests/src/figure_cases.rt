// Figures: NaN among numbers and alone, and the same input in other pages with other coders.
use crate::helper::{Stage, done, flat, limits, values_only};
use areas::Place;
use bodies::{Plain, Split};
use body_coder::BodyCoder;
use columns::{Column, Settings};
use entries::Marks;
use floats::{Bits, Float, FloatBits};
use intake::Batch;
use ints::Int32;
use ledger::BoundaryOrder;
use level_coder::LevelCoder;
use level_data::LevelDataRef;
use levels::{Legacy, Packed};
use packed::PackedSink;
use page_log::{Order, Record};
use sinks::PageSink;
use slotted::SlottedSink;
use std::process::Abort;

const ONE: FloatBits = Bits(0x3F800000);

const MINUS_TWO: FloatBits = Bits(0xC0000000);

const NAN: FloatBits = Bits(0x7FC00000);

const GREATER_NAN: FloatBits = Bits(0x7FC00001);

// Whether marks have such a NaN count and such bounds.
fn marks_are(marks: &Marks, nans: u64, min: &[u8], max: &[u8]) -> bool {
    marks.nan_count == Some(nans)
        && !marks.null_page
        && marks.min.bytes.as_slice() == min
        && marks.max.bytes.as_slice() == max
}

// Whether a record has four NaN, and -2 and 1 for bounds, over pages that ascend.
fn is_of_floats(record: Record) -> bool {
    let order = Order {
        ascending: true,
        descending: false,
        boundary: BoundaryOrder::Ascending,
    };
    record.nans == 4
        && record
            .min
            .is_some_and(|v| v.as_slice() == [0, 0, 0, 0xC0].as_slice())
        && record
            .max
            .is_some_and(|v| v.as_slice() == [0, 0, 0x80, 0x3F].as_slice())
        && record.order == Some(order)
}

// Checks two pages, of which the second has NaN alone.
fn has_floats<A: Abort, L: LevelCoder, B: BodyCoder, S: PageSink>(
    rt: &A,
    chunk: &Stage<Float, L, B, S>,
) {
    let cases = [
        (1, [0, 0, 0, 0xC0], [0, 0, 0x80, 0x3F]),
        (3, [0, 0, 0xC0, 0x7F], [1, 0, 0xC0, 0x7F]),
    ];
    for (k, (nans, min, max)) in cases.iter().enumerate() {
        let marks = chunk.entry(k).ok().and_then(|entry| entry.marks);
        assert!(rt;
            marks.is_some_and(|m| marks_are(&m, *nans, min, max)),
            "page {k}"
        );
    }
    let record = chunk.record();
    assert!(rt; record.is_ok_and(|record| is_of_floats(record)));
}

#[test]
fn floats_and_nan(rt: HostRuntime) {
    let mut area = [7; 64];
    let mut chunk = Stage::<Float, Legacy, Split, SlottedSink>::open(
        flat(4),
        limits(3, 4096),
        SlottedSink::new(&mut area),
    );
    assert_eq!(rt;
        chunk.batch(values_only(&[ONE, NAN, MINUS_TWO])),
        done(3, 1, 0)
    );
    assert_eq!(rt;
        chunk.batch(values_only(&[GREATER_NAN, NAN, GREATER_NAN])),
        done(3, 1, 0)
    );
    assert_eq!(rt; chunk.close(), Ok(0));
    has_floats(&rt, &chunk);
}

// Takes batches and closes.
fn closed<A: Abort, L: LevelCoder, B: BodyCoder, S: PageSink>(
    rt: &A,
    settings: Settings,
    batches: &[Batch<i32>],
    sink: S,
) -> Stage<Int32, L, B, S> {
    let column = Column {
        max_def_level: 1,
        ..flat(4)
    };
    let mut chunk = Stage::<Int32, L, B, S>::open(column, settings, sink);
    for batch in batches {
        let answer = chunk.batch(*batch);
        assert!(rt; answer.is_ok_and(|done| done.waiting == 0));
    }
    assert!(rt; chunk.close().is_ok());
    chunk
}

// Whether two records have the same figures, whatever their bytes and orders.
fn agree(one: Record, other: Record) -> bool {
    let other = Record {
        bytes: one.bytes,
        order: one.order,
        ..other
    };
    one == other
}

// Whether a record has these figures.
fn is_of_six(record: Record) -> bool {
    (record.rows, record.levels, record.nulls) == (6, 6, 2)
        && record
            .min
            .is_some_and(|v| v.as_slice() == [0xF7, 0xFF, 0xFF, 0xFF].as_slice())
        && record
            .max
            .is_some_and(|v| v.as_slice() == [6, 0, 0, 0].as_slice())
}

fn part<'a>(defs: &'a [i16], values: &'a [i32]) -> Batch<'a, i32> {
    Batch {
        count: defs.len(),
        defs: LevelDataRef::Materialized(defs),
        reps: LevelDataRef::absent(),
        values,
    }
}

// Checks that two chunks have the same figures, and which these are.
fn agrees<
    A: Abort,
    L: LevelCoder,
    B: BodyCoder,
    S: PageSink,
    M: LevelCoder,
    C: BodyCoder,
    T: PageSink,
>(rt: &A, one: &Stage<Int32, L, B, S>, other: &Stage<Int32, M, C, T>) {
    match (one.record(), other.record()) {
        (Ok(one), Ok(other)) => assert!(rt; is_of_six(one) && agree(one, other)),
        _ => assert!(rt; false, "no record"),
    }
}

#[test]
fn equal_figures(rt: HostRuntime) {
    let mut area = [7; 100];
    let mut other = [7; 100];
    let mut table = [Place { offset: 0, len: 0 }; 3];
    let pages = closed::<HostRuntime, Packed, Plain, PackedSink>(
        &rt,
        limits(2, 4096),
        &[
            part(&[1, 0], &[4]),
            part(&[1, 1], &[-9, 6]),
            part(&[0, 1], &[2]),
        ],
        PackedSink::new(&mut area, &mut table),
    );
    let page = closed::<HostRuntime, Legacy, Split, SlottedSink>(
        &rt,
        limits(512, 4096),
        &[part(&[1, 0, 1, 1, 0, 1], &[4, -9, 6, 2])],
        SlottedSink::new(&mut other),
    );
    assert_eq!(rt; (pages.count(), page.count()), (3, 1));
    agrees(&rt, &pages, &page);
}
