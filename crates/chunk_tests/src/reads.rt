// Pages read back into lists of any length.
use crate::helper::{Scene, Stage, done, everywhere, limits, nested, refusal, says};
use body_coder::BodyCoder;
use intake::Batch;
use ints::Int32;
use level_coder::LevelCoder;
use level_data::LevelDataRef;
use pages::PageCounts;
use sinks::{Layer, PageSink};
use std::process::Abort;

// Reads a page of four levels and two values into lists of these lengths, or is refused and leaves them as they were.
fn reads<A: Abort, L: LevelCoder, B: BodyCoder, S: PageSink>(
    rt: &A,
    chunk: &Stage<Int32, L, B, S>,
    lengths: (usize, usize, usize),
    fits: bool,
) {
    let (mut reps, mut defs, mut plain) = ([9; 5], [9; 5], [9; 9]);
    let (r, d, p) = (lengths.0.min(5), lengths.1.min(5), lengths.2.min(9));
    let answer = chunk.read(0, &mut reps[..r], &mut defs[..d], &mut plain[..p]);
    if !fits {
        assert_eq!(rt; refusal(answer), says(13, Layer::Page, 0));
        assert!(rt; reps == [9; 5] && defs == [9; 5] && plain == [9; 9]);
        return;
    }
    let counts = PageCounts {
        levels: 4,
        values: 2,
        bytes: 8,
    };
    assert_eq!(rt; answer, Ok(counts));
    assert!(rt; reps == [0, 1, 1, 0, 9] && defs == [2, 1, 2, 1, 9]);
    assert_eq!(rt; plain, [5, 0, 0, 0, 7, 0, 0, 0, 9]);
}

fn reads_all<A: Abort, L: LevelCoder, B: BodyCoder, S: PageSink>(
    rt: &A,
    chunk: &Stage<Int32, L, B, S>,
) {
    reads(rt, chunk, (4, 4, 8), true);
    reads(rt, chunk, (5, 5, 9), true);
    reads(rt, chunk, (3, 4, 8), false);
    reads(rt, chunk, (4, 3, 8), false);
    reads(rt, chunk, (4, 4, 7), false);
    let none = says(27, Layer::Page, 0);
    assert_eq!(rt; refusal(chunk.read(1, &mut [], &mut [], &mut [])), none);
    assert_eq!(rt;
        refusal(chunk.read(usize::MAX, &mut [], &mut [], &mut [])),
        none
    );
    assert_eq!(rt; refusal(chunk.entry(usize::MAX)), none);
}

struct Back;

// Of two pages the sinks take the first alone, which is read with an empty page open and with the second waiting.
impl Scene for Back {
    fn run<A: Abort, L: LevelCoder, B: BodyCoder, S: PageSink + Drop>(rt: &A, sink: S) {
        let mut chunk = Stage::<Int32, L, B, S>::open(nested(4), limits(2, 4096), sink);
        let four = Batch {
            count: 4,
            defs: LevelDataRef::Materialized(&[2, 1, 2, 1]),
            reps: LevelDataRef::Materialized(&[0, 1, 1, 0]),
            values: &[5, 7],
        };
        assert_eq!(rt; chunk.batch(four), done(2, 1, 0));
        reads_all(rt, &chunk);
        let heavy = Batch {
            count: 200,
            defs: LevelDataRef::uniform(2, 200),
            reps: LevelDataRef::uniform(0, 200),
            values: &[1; 200],
        };
        assert_eq!(rt; chunk.batch(heavy), done(200, 0, 25));
        reads_all(rt, &chunk);
    }
}

#[test]
fn read_back(rt: HostRuntime) {
    everywhere::<Back, HostRuntime>(&rt, 60);
}
