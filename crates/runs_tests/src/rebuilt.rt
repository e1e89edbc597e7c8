// A chunk, and one rebuilt from the same levels and values in other batches and pages. Refused calls come between.
//
// What both take, slot by slot, in seven rows:
//
//     slot          0   1    2   3   4   5   6   7    8     9  10
//     repetition    0   1    1   0   0   1   0   0    0     1   0
//     definition    2   1    2   0   2   2   1   0    2     2   2
//     value         1      NaN      -2   3          NaN  -NaN   4
//     row           0            1   2       3   4    5         6
use crate::helper::{
    batch, close, cut, ended, has_answers, has_places, is_histogram, is_made_of, is_value, limits,
    nulls, refused, run_both, took, unended,
};
use areas::Place;
use bodies::{Plain, Split};
use buffers::Buffer;
use columns::Column;
use entries::{Entry, EntryTable};
use floats::{Bits, Float, FloatBits};
use ledger::BoundaryOrder;
use level_data::LevelDataRef;
use levels::{Legacy, Packed};
use packed::PackedSink;
use page_log::{Order, Record};
use refusals::ChunkFault;
use runs::{Played, has_same_figures};
use slotted::SlottedSink;
use std::process::Abort;

const LISTS: Column = Column {
    width: 4,
    max_def_level: 2,
    max_rep_level: 1,
};

const ONE: FloatBits = Bits(0x3F800000);

const MINUS_TWO: FloatBits = Bits(0xC0000000);

const THREE: FloatBits = Bits(0x40400000);

const FOUR: FloatBits = Bits(0x40800000);

const NAN: FloatBits = Bits(0x7FC00000);

const MINUS_NAN: FloatBits = Bits(0xFFC00000);

fn lists<'a, V>(reps: &'a [i16], defs: &'a [i16], values: &'a [V]) -> Played<'a, V> {
    batch(
        defs.len(),
        LevelDataRef::Materialized(defs),
        LevelDataRef::Materialized(reps),
        values,
    )
}

// Pages of slots 0 to 5, 6 and 7, 8 and 9, and 10, for a limit of two rows. Values that are not needed stand behind.
fn small_batches<'a>() -> [Played<'a, FloatBits>; 14] {
    [
        lists(&[0, 1], &[2, 2], &[ONE]),
        lists(&[0, 1, 1], &[2, 1, 2], &[ONE, NAN]),
        lists(&[0, 1], &[2, 3], &[ONE, ONE]),
        lists(&[0, 0, 1], &[0, 2, 2], &[MINUS_TWO, THREE, ONE]),
        lists(&[1, 0], &[1, 1], &[]),
        batch(
            2,
            LevelDataRef::Materialized(&[1, 0]),
            LevelDataRef::uniform(0, 2),
            &[FOUR],
        ),
        lists(&[0, 1], &[2, 2], &[NAN, MINUS_NAN]),
        cut(),
        cut(),
        lists(&[0], &[2], &[FOUR]),
        close(),
        lists(&[0], &[2], &[ONE]),
        cut(),
        close(),
    ]
}

fn answers_small<A: Abort>(rt: &A, calls: &[Played<FloatBits>]) {
    let answers = [
        (refused(ChunkFault::FewValues), 9),
        (took(2, 0, 0), 0),
        (refused(ChunkFault::LevelRange(1)), 7),
        (took(2, 1, 0), 0),
        (refused(ChunkFault::FirstRepetition), 8),
        (took(0, 1, 0), 0),
        (took(2, 0, 0), 0),
        (ended(1), 0),
        (ended(0), 0),
        (took(1, 0, 0), 0),
        (ended(1), 0),
        (refused(ChunkFault::Closed), 21),
        (unended(ChunkFault::Closed), 21),
        (unended(ChunkFault::Closed), 21),
    ];
    has_answers(rt, calls, &answers);
}

// A value by its bytes.
fn bytes(value: FloatBits) -> Buffer<128> {
    let mut bytes = Buffer::new();
    let _ = bytes.extend(&value.0.to_le_bytes());
    bytes
}

// Pages of slots 0 to 7, and 8 to 10, for a limit of five rows. The last of the values is none of the column.
fn large_batches<'a>(values: &'a [Buffer<128>; 8]) -> [Played<'a, Buffer<128>>; 8] {
    let values = &values[..];
    [
        lists(&[0, 1, 1, 0], &[2, 1, 2, 0], values),
        lists(&[0; 257], &[0; 257], &[]),
        lists(&[0, 1, 0, 0], &[2, 2, 1, 0], &values[2..]),
        lists(&[0, 1], &[2, 2], &values[6..]),
        batch(
            2,
            LevelDataRef::absent(),
            LevelDataRef::uniform(0, 2),
            values,
        ),
        lists(&[0, 1, 0], &[2, 2, 2], &values[4..]),
        close(),
        close(),
    ]
}

fn answers_large<A: Abort>(rt: &A, calls: &[Played<Buffer<128>>]) {
    let answers = [
        (took(2, 0, 0), 0),
        (refused(ChunkFault::BatchLevels), 4),
        (took(2, 1, 0), 0),
        (refused(ChunkFault::ValueLength(1)), 10),
        (refused(ChunkFault::LevelsAbsent), 5),
        (took(3, 0, 0), 0),
        (ended(1), 0),
        (unended(ChunkFault::Closed), 21),
    ];
    has_answers(rt, calls, &answers);
}

// The bounds of a page, its nulls, its NaN and its counts of both levels.
type Marked<'a> = (&'a [u8], &'a [u8], u64, u64, [u64; 2], [u64; 3]);

fn is_marked(entry: &Entry, said: Marked) -> bool {
    let Some(marks) = &entry.marks else {
        return false;
    };
    let (min, max, nulls, nans, reps, defs) = said;
    marks.null_page == min.is_empty()
        && marks.min.bytes.as_slice() == min
        && marks.max.bytes.as_slice() == max
        && !marks.min.is_cut
        && !marks.max.is_cut
        && marks.null_count == nulls
        && marks.nan_count == Some(nans)
        && is_histogram(&marks.repetition_level_histogram, &reps)
        && is_histogram(&marks.definition_level_histogram, &defs)
}

// Checks the marks of the pages of a run, and that their nulls add up to the four of the record.
fn has_marks<A: Abort>(rt: &A, entries: &EntryTable, pages: &[Marked]) {
    for (k, said) in pages.iter().enumerate() {
        let entry = entries.get(k);
        assert!(rt;
            entry.is_some_and(|entry| is_marked(&entry, *said)),
            "page {k}"
        );
    }
    assert_eq!(rt; nulls(entries), 4);
}

// The second of the small pages has no value, and the third NaN alone, of which the negative one is the smallest.
fn marks_small<A: Abort>(rt: &A, entries: &EntryTable) {
    let pages: [Marked; 4] = [
        (
            &[0, 0, 0, 0xC0],
            &[0, 0, 0x40, 0x40],
            2,
            1,
            [3, 3],
            [1, 1, 4],
        ),
        (&[], &[], 2, 0, [2, 0], [1, 1, 0]),
        (
            &[0, 0, 0xC0, 0xFF],
            &[0, 0, 0xC0, 0x7F],
            0,
            2,
            [1, 1],
            [0, 0, 2],
        ),
        (
            &[0, 0, 0x80, 0x40],
            &[0, 0, 0x80, 0x40],
            0,
            0,
            [1, 0],
            [0, 0, 1],
        ),
    ];
    has_marks(rt, entries, &pages);
}

// The second of the large pages has two NaN and one number, which both of its bounds are.
fn marks_large<A: Abort>(rt: &A, entries: &EntryTable) {
    let pages: [Marked; 2] = [
        (
            &[0, 0, 0, 0xC0],
            &[0, 0, 0x40, 0x40],
            4,
            1,
            [5, 3],
            [2, 2, 4],
        ),
        (
            &[0, 0, 0x80, 0x40],
            &[0, 0, 0x80, 0x40],
            0,
            2,
            [2, 1],
            [0, 0, 3],
        ),
    ];
    has_marks(rt, entries, &pages);
}

// Whether a record has the figures of all eleven slots.
fn is_of_all(record: &Record) -> bool {
    (record.rows, record.levels, record.nulls, record.nans) == (7, 11, 4, 3)
        && is_histogram(&record.repetition_level_histogram, &[7, 4])
        && is_histogram(&record.definition_level_histogram, &[2, 2, 7])
        && is_value(&record.min, &[0, 0, 0, 0xC0])
        && is_value(&record.max, &[0, 0, 0x80, 0x40])
}

// Checks both records: the figures are the same, and bytes and order each run's own.
fn has_records<A: Abort>(
    rt: &A,
    small: Result<Record, ChunkFault>,
    large: Result<Record, ChunkFault>,
) {
    let (Ok(small), Ok(large)) = (small, large) else {
        assert!(rt; false, "no record");
        return;
    };
    assert!(rt; is_of_all(&small) && is_of_all(&large));
    assert!(rt; has_same_figures(&small, &large));
    assert_eq!(rt; (small.bytes, large.bytes), (80, 33));
    // of the small pages that have values, the second begins below the first and ends above it
    let unordered = Order {
        ascending: false,
        descending: false,
        boundary: BoundaryOrder::Unordered,
    };
    assert_eq!(rt; small.order, Some(unordered));
    let ascending = Order {
        ascending: true,
        descending: false,
        boundary: BoundaryOrder::Ascending,
    };
    assert_eq!(rt; large.order, Some(ascending));
}

// The small pages: both level lists, with their length and the number 3 of one group before them, and the values. The first
// level has the lowest bits: 26 is 0 1 1 0 0 1 of one bit, and 26 0A is 2 1 2 0 2 2 of two.
const SMALL: [&[u8]; 4] = [
    &[
        2, 0, 0, 0, 3, 0x26, 3, 0, 0, 0, 3, 0x26, 0x0A, 0, 0, 0x80, 0x3F, 0, 0, 0xC0, 0x7F, 0, 0,
        0, 0xC0, 0, 0, 0x40, 0x40,
    ],
    &[2, 0, 0, 0, 3, 0, 3, 0, 0, 0, 3, 1, 0],
    &[
        2, 0, 0, 0, 3, 2, 3, 0, 0, 0, 3, 0x0A, 0, 0, 0, 0xC0, 0x7F, 0, 0, 0xC0, 0xFF,
    ],
    &[2, 0, 0, 0, 3, 0, 3, 0, 0, 0, 3, 2, 0, 0, 0, 0x80, 0x40],
];

// The large pages: the bits of both level lists, and the values by streams of bytes. The first level has the highest bits:
// 64 is 0 1 1 0 0 1 0 0 of one bit, and 98 A4 is 2 1 2 0 2 2 1 0 of two.
const LARGE: [&[u8]; 2] = [
    &[
        0x64, 0x98, 0xA4, 0, 0, 0, 0, 0, 0, 0, 0, 0x80, 0xC0, 0, 0x40, 0x3F, 0x7F, 0xC0, 0x40,
    ],
    &[
        0x40, 0xA8, 0, 0, 0, 0, 0, 0, 0xC0, 0xC0, 0x80, 0x7F, 0xFF, 0x40,
    ],
];

// Checks what is left of the sink of the small pages.
fn left_small<A: Abort>(rt: &A, area: &[u8], table: &[Place]) {
    let parts: [&[u8]; 5] = [b"PAR1", SMALL[0], SMALL[1], SMALL[2], SMALL[3]];
    assert_eq!(rt; area.len(), 96);
    assert!(rt; is_made_of(area, &parts, 7));
    let pair = |offset, len| Place { offset, len };
    let places = [
        pair(4, 29),
        pair(33, 13),
        pair(46, 21),
        pair(67, 17),
        pair(9, 9),
    ];
    assert_eq!(rt; table, places.as_slice());
}

// Checks what is left of the sink of the large pages: seven bytes between them and their pairs are as they were.
fn left_large<A: Abort>(rt: &A, area: &[u8]) {
    let pairs: &[u8] = &[19, 0, 14, 0, 0, 0, 19, 0];
    assert_eq!(rt; area.len(), 48);
    assert!(rt; is_made_of(area, &[LARGE[0], LARGE[1], &[7; 7], pairs], 7));
}

// Checks the scratch: at its front the page that was written last, and behind it what longer ones before it left.
fn left_scratch<A: Abort>(rt: &A, scratch: &[u8]) {
    let parts: [&[u8]; 4] = [LARGE[1], &LARGE[0][14..], &SMALL[2][19..], &SMALL[0][21..]];
    assert_eq!(rt; scratch.len(), 9227);
    assert!(rt; is_made_of(scratch, &parts, 0xEE));
}

// Rebuilding changes batches, pages, coders and the sink, and no figure.
#[test]
fn rebuilt_with_other_pages(rt: HostRuntime) {
    let mut area = [7; 96];
    let mut table = [Place { offset: 9, len: 9 }; 5];
    let mut other_area = [7; 48];
    let mut scratch = [0xEE; 9227];
    let mut short = Buffer::new();
    let _ = short.extend(&[0, 0, 0x80]);
    let values = [
        bytes(ONE),
        bytes(NAN),
        bytes(MINUS_TWO),
        bytes(THREE),
        bytes(NAN),
        bytes(MINUS_NAN),
        bytes(FOUR),
        short,
    ];
    let mut calls = small_batches();
    let mut other_calls = large_batches(&values);
    let (run, other) = run_both::<
        Float,
        Packed,
        Plain,
        PackedSink,
        FloatBits,
        Legacy,
        Split,
        SlottedSink,
        Buffer<128>,
    >(
        LISTS,
        limits(2, 4096),
        PackedSink::new(&mut area, &mut table),
        &mut calls,
        limits(5, 4096),
        SlottedSink::new(&mut other_area),
        &mut other_calls,
        &mut scratch,
    );
    answers_small(&rt, &calls);
    answers_large(&rt, &other_calls);
    has_records(&rt, run.record, other.record);
    // 13 bytes of levels, and 4 for each value
    has_places(
        &rt,
        &run.entries,
        &[
            (4, 29, 6, 0),
            (33, 13, 2, 3),
            (46, 21, 2, 5),
            (67, 17, 1, 6),
        ],
    );
    marks_small(&rt, &run.entries);
    // 3 and 2 bytes of levels, and 4 for each value
    has_places(&rt, &other.entries, &[(0, 19, 8, 0), (19, 14, 3, 5)]);
    marks_large(&rt, &other.entries);
    let (area, table) = run.chunk.into_sink().into_parts();
    left_small(&rt, area, table);
    left_large(&rt, other.chunk.into_sink().into_area());
    left_scratch(&rt, &scratch);
}
