// A chunk of 64 pages, over sinks that hold these and no more.
use crate::helper::{
    Scene, Stage, done, everywhere, flat, limits, place, refusal, says, sums, values_only,
};
use body_coder::BodyCoder;
use ints::Int32;
use level_coder::LevelCoder;
use sinks::{Layer, PageSink, SinkFault};
use std::process::Abort;

// A chunk of 64 pages of one value each, from 0 to 63.
fn filled<A: Abort, L: LevelCoder, B: BodyCoder, S: PageSink + Drop>(
    rt: &A,
    sink: S,
) -> Stage<Int32, L, B, S> {
    let mut chunk = Stage::<Int32, L, B, S>::open(flat(4), limits(1, 4096), sink);
    for k in 0..64 {
        assert_eq!(rt; chunk.batch(values_only(&[k])), done(1, 1, 0));
    }
    assert_eq!(rt; chunk.sink().takes(4), Err(SinkFault::Full(4)));
    chunk
}

// Refuses each call that writes, while a page waits.
fn refuses_all<A: Abort, L: LevelCoder, B: BodyCoder, S: PageSink>(
    rt: &A,
    chunk: &mut Stage<Int32, L, B, S>,
) {
    let full = says(24, Layer::Chunk, 0);
    assert_eq!(rt;
        refusal(chunk.batch(values_only(&[65]))),
        says(22, Layer::Chunk, 0)
    );
    assert_eq!(rt; refusal(chunk.cut()), full);
    assert_eq!(rt; refusal(chunk.close()), full);
    assert_eq!(rt; refusal(chunk.cut_short()), says(3, Layer::Page, 0));
    assert!(rt; chunk.has(&[63, 0, 0, 0]));
}

struct Waits;

impl Scene for Waits {
    fn run<A: Abort, L: LevelCoder, B: BodyCoder, S: PageSink + Drop>(rt: &A, sink: S) {
        let mut chunk = filled::<A, L, B, S>(rt, sink);
        assert_eq!(rt; chunk.batch(values_only(&[64])), done(1, 0, 24));
        refuses_all(rt, &mut chunk);
        refuses_all(rt, &mut chunk);
        assert_eq!(rt; refusal(chunk.record()), says(26, Layer::Chunk, 0));
        assert_eq!(rt; refusal(chunk.entry(64)), says(27, Layer::Page, 0));
        let mut plain = [9; 5];
        let read = chunk.read(63, &mut [], &mut [], &mut plain);
        assert_eq!(rt; refusal(read), None);
        assert_eq!(rt; plain, [63, 0, 0, 0, 9]);
    }
}

#[test]
fn a_65th_page_waits(rt: HostRuntime) {
    everywhere::<Waits, HostRuntime>(&rt, 512);
}

struct Ends;

impl Scene for Ends {
    fn run<A: Abort, L: LevelCoder, B: BodyCoder, S: PageSink + Drop>(rt: &A, sink: S) {
        let mut chunk = filled::<A, L, B, S>(rt, sink);
        assert_eq!(rt; chunk.cut(), Ok(0));
        assert_eq!(rt; chunk.close(), Ok(0));
        assert!(rt; chunk.has(&[63, 0, 0, 0]));
        assert_eq!(rt; sums(chunk.record()), Some((64, 64, 0, 256)));
        let place = place(chunk.entry(63));
        assert!(rt; place.is_some_and(|(_, size, levels, row)| (size, levels, row) == (4, 1, 63)));
    }
}

#[test]
fn no_page_behind_the_64th(rt: HostRuntime) {
    everywhere::<Ends, HostRuntime>(&rt, 512);
}
