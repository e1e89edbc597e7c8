// Where a maximum is 0, levels are not looked at; values behind those that are needed never are.
use crate::helper::{
    Scene, Stage, done, everywhere, flat, limits, refusal, says, sums, values_only,
};
use body_coder::BodyCoder;
use byte_kinds::FixedLenByteArray;
use columns::Column;
use intake::Batch;
use level_coder::LevelCoder;
use level_data::LevelDataRef;
use pages::PageCounts;
use sinks::{Layer, PageSink};
use std::process::Abort;

const VALUE: &[u8] = &[5; 16];

const SHORT: &[u8] = &[5; 15];

struct Ignored;

impl Scene for Ignored {
    fn run<A: Abort, L: LevelCoder, B: BodyCoder, S: PageSink + Drop>(rt: &A, sink: S) {
        let mut chunk = Stage::<FixedLenByteArray, L, B, S>::open(
            flat(16),
            limits(512, 4096),
            sink,
        );
        let wrong = Batch {
            count: 2,
            defs: LevelDataRef::Materialized(&[-1]),
            reps: LevelDataRef::uniform(7, 0),
            values: &[VALUE, VALUE, SHORT],
        };
        assert_eq!(rt; chunk.batch(wrong), done(2, 0, 0));
        let none = Batch { count: 0, ..wrong };
        assert_eq!(rt; chunk.batch(none), done(0, 0, 0));
        assert_eq!(rt; refusal(chunk.batch_short(none)), says(3, Layer::Page, 0));
        assert!(rt; chunk.has(&[]));
        let few = Batch { count: 4, ..wrong };
        assert_eq!(rt; refusal(chunk.batch(few)), says(9, Layer::Chunk, 0));
        let short = Batch { count: 3, ..wrong };
        assert_eq!(rt; refusal(chunk.batch(short)), says(10, Layer::Chunk, 2));
        assert_eq!(rt; chunk.cut(), Ok(1));
        has_two(rt, &chunk);
    }
}

// Has a page of two values, whose levels are not read.
fn has_two<A: Abort, L: LevelCoder, B: BodyCoder, S: PageSink>(
    rt: &A,
    chunk: &Stage<FixedLenByteArray, L, B, S>,
) {
    let (mut reps, mut defs, mut plain) = ([9; 3], [9; 3], [9; 33]);
    let counts = PageCounts {
        levels: 2,
        values: 2,
        bytes: 32,
    };
    assert_eq!(rt;
        chunk.read(0, &mut [], &mut [], &mut plain[..32]),
        Ok(counts)
    );
    assert_eq!(rt; chunk.read(0, &mut reps, &mut defs, &mut plain), Ok(counts));
    assert!(rt; reps == [9; 3] && defs == [9; 3]);
    assert_eq!(rt; plain.iter().position(|byte| *byte != 5), Some(32));
}

#[test]
fn levels_that_are_not_looked_at(rt: HostRuntime) {
    everywhere::<Ignored, HostRuntime>(&rt, 100);
}

struct Needed;

impl Scene for Needed {
    fn run<A: Abort, L: LevelCoder, B: BodyCoder, S: PageSink + Drop>(rt: &A, sink: S) {
        let column = Column {
            max_def_level: 1,
            ..flat(16)
        };
        let mut chunk = Stage::<FixedLenByteArray, L, B, S>::open(column, limits(512, 4096), sink);
        let one = Batch {
            count: 3,
            defs: LevelDataRef::Materialized(&[0, 1, 0]),
            reps: LevelDataRef::Materialized(&[-3]),
            values: &[VALUE, SHORT],
        };
        assert_eq!(rt; chunk.batch(one), done(1, 0, 0));
        // no levels where none are counted, but not absent ones
        let none = Batch {
            count: 0,
            defs: LevelDataRef::Materialized(&[]),
            ..one
        };
        assert_eq!(rt; chunk.batch(none), done(0, 0, 0));
        let absent = Batch {
            defs: LevelDataRef::absent(),
            ..none
        };
        assert_eq!(rt; refusal(chunk.batch(absent)), says(5, Layer::Chunk, 0));
        assert!(rt; chunk.has(&[]));
        assert_eq!(rt; chunk.close(), Ok(1));
        // one value of 16 bytes, and a list of six bytes or one
        let sums = sums(chunk.record());
        assert!(rt; sums == Some((3, 3, 2, 22)) || sums == Some((3, 3, 2, 17)));
    }
}

#[test]
fn values_that_are_not_looked_at(rt: HostRuntime) {
    everywhere::<Needed, HostRuntime>(&rt, 100);
}

struct Plainly;

impl Scene for Plainly {
    fn run<A: Abort, L: LevelCoder, B: BodyCoder, S: PageSink + Drop>(rt: &A, sink: S) {
        // 241 values of 17 bytes are 4,097, and 256 of 16 are 4,096
        let value: &[u8] = &[5; 17];
        let mut chunk = Stage::<FixedLenByteArray, L, B, S>::open(
            flat(17),
            limits(512, 4096),
            sink,
        );
        assert_eq!(rt;
            refusal(chunk.batch(values_only(&[value; 241]))),
            says(11, Layer::Page, 0)
        );
        assert_eq!(rt;
            refusal(chunk.batch(values_only(&[value; 257]))),
            says(4, Layer::Chunk, 0)
        );
        assert_eq!(rt; chunk.cut(), Ok(0));
        assert!(rt; chunk.has(&[]));
        let mut chunk = Stage::<FixedLenByteArray, L, B, S>::open(
            flat(16),
            limits(512, 4096),
            chunk.into_sink(),
        );
        assert_eq!(rt; chunk.batch(values_only(&[VALUE; 256])), done(256, 1, 0));
        assert!(rt;
            chunk
                .entry(0)
                .is_ok_and(|entry| entry.levels == 256 && entry.size == 4096)
        );
    }
}

#[test]
fn plain_bytes_of_a_batch(rt: HostRuntime) {
    everywhere::<Plainly, HostRuntime>(&rt, 5000);
}
