// What a batch is refused for, each time beside a later reason.
use crate::helper::{Scene, Stage, done, everywhere, limits, nested, refusal, says};
use body_coder::BodyCoder;
use byte_kinds::FixedLenByteArray;
use intake::Batch;
use level_coder::LevelCoder;
use level_data::LevelDataRef;
use pages::PageCounts;
use sinks::{Layer, PageSink, Said};
use std::process::Abort;

// 32 of these have 4,096 plain bytes.
const VALUE: &[u8] = &[5; 128];

const SHORT: &[u8] = &[5; 127];

type Lists<L, B, S> = Stage<FixedLenByteArray, L, B, S>;

fn batch<'a>(
    count: usize,
    defs: LevelDataRef<'a>,
    reps: LevelDataRef<'a>,
    values: &'a [&'a [u8]],
) -> Batch<'a, &'a [u8]> {
    Batch {
        count,
        defs,
        reps,
        values,
    }
}

fn all<'a>(levels: &'a [i16]) -> LevelDataRef<'a> {
    LevelDataRef::Materialized(levels)
}

// Refuses a batch so, and leaves the scratch and the sink as they were.
fn refuses<A: Abort, L: LevelCoder, B: BodyCoder, S: PageSink>(
    rt: &A,
    chunk: &mut Lists<L, B, S>,
    batch: Batch<&[u8]>,
    said: Option<Said>,
) {
    assert_eq!(rt; refusal(chunk.batch(batch)), said, "{batch:?}");
    assert!(rt; chunk.has(&[]));
    assert_eq!(rt; chunk.count(), 0);
}

// Levels that are too many, absent, miscounted, out of range or late: the batch, the number and the position.
fn by_levels<A: Abort, L: LevelCoder, B: BodyCoder, S: PageSink>(
    rt: &A,
    chunk: &mut Lists<L, B, S>,
) {
    let none = LevelDataRef::absent();
    let two = [VALUE; 2];
    for (batch, number, position) in [
        (batch(257, none, all(&[0]), &two), 4, 0),
        (batch(4, none, all(&[0, 1, 1]), &two), 5, 0),
        (batch(4, all(&[2, 2, 2]), none, &two), 5, 0),
        (batch(4, all(&[2, 2, 2]), all(&[]), &two), 5, 0),
        (
            batch(4, all(&[2, 1, 2, 1]), LevelDataRef::uniform(0, 0), &two),
            5,
            0,
        ),
        (batch(0, all(&[]), all(&[]), &two), 5, 0),
        (batch(4, all(&[2, -1, 2]), all(&[0, 1, 1, 0]), &two), 6, 0),
        (batch(4, all(&[2, 3, 2, 2]), all(&[0, 1, 1]), &two), 6, 0),
        (
            batch(4, LevelDataRef::uniform(3, 5), all(&[0, 1, 1, 0]), &two),
            6,
            0,
        ),
        (batch(4, all(&[2, 2, 2, 3]), all(&[1, 2, 0, 0]), &two), 7, 3),
        (
            batch(4, all(&[2, -1, 2, 3]), all(&[1, 2, 0, 0]), &two),
            7,
            1,
        ),
        (
            batch(4, all(&[2, 2, 2, 2]), all(&[1, 1, 2, -1]), &two),
            7,
            2,
        ),
        (batch(4, all(&[2, 2, 2, 2]), all(&[2, 1, 1, 0]), &two), 7, 0),
        (batch(4, all(&[2, 2, 2, 2]), all(&[1, 1, 1, 0]), &two), 8, 0),
    ] {
        refuses(rt, chunk, batch, says(number, Layer::Chunk, position));
    }
}

// Values that are too few, of another length or too many bytes.
fn by_values<A: Abort, L: LevelCoder, B: BodyCoder, S: PageSink>(
    rt: &A,
    chunk: &mut Lists<L, B, S>,
) {
    let full = LevelDataRef::uniform(2, 33);
    let rows = LevelDataRef::uniform(0, 33);
    let mut many = [VALUE; 33];
    refuses(
        rt,
        chunk,
        batch(33, full, rows, &[SHORT; 32]),
        says(9, Layer::Chunk, 0),
    );
    refuses(
        rt,
        chunk,
        batch(33, full, rows, &many),
        says(11, Layer::Page, 0),
    );
    many[5] = SHORT;
    many[32] = SHORT;
    refuses(
        rt,
        chunk,
        batch(33, full, rows, &many),
        says(10, Layer::Chunk, 5),
    );
    let none = LevelDataRef::absent();
    assert_eq!(rt;
        refusal(chunk.batch_short(batch(257, none, rows, &many))),
        says(3, Layer::Page, 0)
    );
    assert!(rt; chunk.has(&[]));
}

// Takes four levels with two values.
fn takes_four<A: Abort, L: LevelCoder, B: BodyCoder, S: PageSink>(
    rt: &A,
    chunk: &mut Lists<L, B, S>,
) {
    let four = batch(
        4,
        all(&[2, 1, 2, 1]),
        all(&[0, 1, 1, 0]),
        &[VALUE, VALUE, SHORT],
    );
    assert_eq!(rt; chunk.batch(four), done(2, 0, 0));
    assert!(rt; chunk.has(&[]));
}

struct Refused;

impl Scene for Refused {
    fn run<A: Abort, L: LevelCoder, B: BodyCoder, S: PageSink + Drop>(rt: &A, sink: S) {
        let mut chunk = Lists::<L, B, S>::open(nested(128), limits(512, 4096), sink);
        by_levels(rt, &mut chunk);
        takes_four(rt, &mut chunk);
        by_levels(rt, &mut chunk);
        by_values(rt, &mut chunk);
        assert_eq!(rt; chunk.cut(), Ok(1));
        has_four(rt, &chunk);
    }
}

// Has a page of these four levels and two values.
fn has_four<A: Abort, L: LevelCoder, B: BodyCoder, S: PageSink>(rt: &A, chunk: &Lists<L, B, S>) {
    let (mut reps, mut defs, mut plain) = ([9; 5], [9; 5], [9; 257]);
    let counts = PageCounts {
        levels: 4,
        values: 2,
        bytes: 256,
    };
    assert_eq!(rt; chunk.read(0, &mut reps, &mut defs, &mut plain), Ok(counts));
    assert!(rt; reps == [0, 1, 1, 0, 9] && defs == [2, 1, 2, 1, 9]);
    assert_eq!(rt; plain.iter().position(|byte| *byte != 5), Some(256));
}

#[test]
fn refused_in_order(rt: HostRuntime) {
    everywhere::<Refused, HostRuntime>(&rt, 1000);
}

// One row of so many nulls.
fn row<'a>(reps: &'a [i16]) -> Batch<'a, &'a [u8]> {
    batch(
        reps.len(),
        LevelDataRef::uniform(1, reps.len()),
        all(reps),
        &[],
    )
}

struct Levels;

impl Scene for Levels {
    fn run<A: Abort, L: LevelCoder, B: BodyCoder, S: PageSink + Drop>(rt: &A, sink: S) {
        let mut chunk = Lists::<L, B, S>::open(nested(128), limits(512, 4096), sink);
        let mut reps = [1; 256];
        reps[0] = 0;
        for _ in 0..3 {
            assert_eq!(rt; chunk.batch(row(&reps)), done(0, 0, 0));
        }
        assert_eq!(rt; chunk.batch(row(&reps[..255])), done(0, 0, 0));
        let past = says(23, Layer::Page, 0);
        refuses(rt, &mut chunk, row(&reps[..2]), past);
        assert_eq!(rt; chunk.batch(row(&reps[..1])), done(0, 0, 0));
        refuses(rt, &mut chunk, row(&reps[..1]), past);
        let (full, rows) = (LevelDataRef::uniform(2, 33), LevelDataRef::uniform(0, 33));
        let heavy = batch(33, full, rows, &[VALUE; 33]);
        refuses(rt, &mut chunk, heavy, says(11, Layer::Page, 0));
        assert_eq!(rt; chunk.cut(), Ok(1));
        assert!(rt; chunk.entry(0).is_ok_and(|entry| entry.levels == 1024));
    }
}

#[test]
fn a_page_of_1024_levels(rt: HostRuntime) {
    everywhere::<Levels, HostRuntime>(&rt, 2000);
}
