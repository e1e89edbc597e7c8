// A sink that has pages before: page k of a chunk is the k-th behind them.
use crate::helper::{
    Scene, Stage, done, everywhere, flat, limits, place, refusal, says, sums, values_only,
};
use body_coder::BodyCoder;
use ints::Int32;
use level_coder::LevelCoder;
use pages::PageCounts;
use sinks::{Layer, PageSink, PageStore};
use std::process::Abort;

// Reads a page of at most two values.
fn reads<A: Abort, L: LevelCoder, B: BodyCoder, S: PageSink>(
    rt: &A,
    chunk: &Stage<Int32, L, B, S>,
    k: usize,
    values: &[u8],
) {
    let mut plain = [9; 9];
    let counts = PageCounts {
        levels: values.len() / 4,
        values: values.len() / 4,
        bytes: values.len(),
    };
    assert_eq!(rt; chunk.read(k, &mut [], &mut [], &mut plain), Ok(counts));
    assert_eq!(rt;
        plain
            .strip_prefix(values)
            .map(|rest| rest.iter().all(|b| *b == 9)),
        Some(true)
    );
}

// Has no page yet, whatever the sink has.
fn begins<A: Abort, L: LevelCoder, B: BodyCoder, S: PageSink>(
    rt: &A,
    chunk: &Stage<Int32, L, B, S>,
) {
    let none = says(27, Layer::Page, 0);
    assert_eq!(rt; chunk.count(), 2);
    assert_eq!(rt; refusal(chunk.entry(0)), none);
    assert_eq!(rt; refusal(chunk.read(1, &mut [], &mut [], &mut [])), none);
}

struct Behind;

impl Scene for Behind {
    fn run<A: Abort, L: LevelCoder, B: BodyCoder, S: PageSink + Drop>(rt: &A, sink: S) {
        let mut sink = sink;
        assert!(rt; sink.write(b"ab").is_ok() && sink.write(b"").is_ok());
        let mut chunk = Stage::<Int32, L, B, S>::open(flat(4), limits(2, 4096), sink);
        begins(rt, &chunk);
        assert_eq!(rt; chunk.batch(values_only(&[1, 2])), done(2, 1, 0));
        assert_eq!(rt; chunk.batch(values_only(&[3])), done(1, 0, 0));
        assert_eq!(rt; chunk.close(), Ok(1));
        reads(rt, &chunk, 0, &[1, 0, 0, 0, 2, 0, 0, 0]);
        reads(rt, &chunk, 1, &[3, 0, 0, 0]);
        assert_eq!(rt; refusal(chunk.entry(2)), says(27, Layer::Page, 0));
        assert_eq!(rt; sums(chunk.record()), Some((3, 3, 0, 12)));
        // packed pages lie behind PAR1, slotted ones from the front
        let first = chunk.sink().offset(0).unwrap_or(9).min(9);
        assert_eq!(rt; place(chunk.entry(0)), Some((first + 2, 8, 2, 0)));
        assert_eq!(rt; place(chunk.entry(1)), Some((first + 10, 4, 1, 2)));
        assert_eq!(rt; chunk.count(), 4);
    }
}

#[test]
fn pages_behind_others(rt: HostRuntime) {
    everywhere::<Behind, HostRuntime>(&rt, 60);
}
