// Cuts and closes, and what is refused of a chunk that is closed.
use crate::helper::{
    Scene, Stage, done, everywhere, flat, limits, refusal, says, sums, values_only,
};
use body_coder::BodyCoder;
use ints::Int32;
use level_coder::LevelCoder;
use sinks::{Layer, PageSink};
use std::process::Abort;

// Refuses each call that writes, with the scratch as it was.
fn refuses_all<A: Abort, L: LevelCoder, B: BodyCoder, S: PageSink>(
    rt: &A,
    chunk: &mut Stage<Int32, L, B, S>,
    front: &[u8],
) {
    let closed = says(21, Layer::Chunk, 0);
    assert_eq!(rt; refusal(chunk.batch(values_only(&[1]))), closed);
    assert_eq!(rt; refusal(chunk.batch_short(values_only(&[1; 257]))), closed);
    assert_eq!(rt; refusal(chunk.cut()), closed);
    assert_eq!(rt; refusal(chunk.cut_short()), closed);
    assert_eq!(rt; refusal(chunk.close()), closed);
    assert_eq!(rt; refusal(chunk.close_short()), closed);
    assert!(rt; chunk.has(front));
}

// Refuses what a chunk without pages does while it is open, and cuts none.
fn begins<A: Abort, L: LevelCoder, B: BodyCoder, S: PageSink>(
    rt: &A,
    chunk: &mut Stage<Int32, L, B, S>,
) {
    let short = says(3, Layer::Page, 0);
    assert_eq!(rt; refusal(chunk.cut_short()), short);
    assert_eq!(rt; refusal(chunk.close_short()), short);
    assert_eq!(rt; chunk.cut(), Ok(0));
    assert_eq!(rt; refusal(chunk.record()), says(26, Layer::Chunk, 0));
    assert!(rt; chunk.has(&[]));
}

struct Closed;

impl Scene for Closed {
    fn run<A: Abort, L: LevelCoder, B: BodyCoder, S: PageSink + Drop>(rt: &A, sink: S) {
        let mut chunk = Stage::<Int32, L, B, S>::open(flat(4), limits(512, 4096), sink);
        begins(rt, &mut chunk);
        assert_eq!(rt; chunk.batch(values_only(&[0x01010101])), done(1, 0, 0));
        assert_eq!(rt; refusal(chunk.close_short()), says(3, Layer::Page, 0));
        assert_eq!(rt; refusal(chunk.record()), says(26, Layer::Chunk, 0));
        assert_eq!(rt; chunk.close(), Ok(1));
        let record = chunk.record();
        refuses_all(rt, &mut chunk, &[1; 4]);
        assert_eq!(rt; chunk.count(), 1);
        assert_eq!(rt; chunk.record(), record);
        assert_eq!(rt; sums(record), Some((1, 1, 0, 4)));
    }
}

#[test]
fn closed_once(rt: HostRuntime) {
    everywhere::<Closed, HostRuntime>(&rt, 100);
}

struct Refused;

impl Scene for Refused {
    fn run<A: Abort, L: LevelCoder, B: BodyCoder, S: PageSink + Drop>(rt: &A, sink: S) {
        let mut chunk = Stage::<Int32, L, B, S>::open(flat(3), limits(512, 4096), sink);
        refuses_all(rt, &mut chunk, &[]);
        let none = says(27, Layer::Page, 0);
        assert_eq!(rt; refusal(chunk.record()), says(26, Layer::Chunk, 0));
        assert_eq!(rt; refusal(chunk.entry(0)), none);
        assert_eq!(rt; refusal(chunk.read(0, &mut [], &mut [], &mut [])), none);
        assert_eq!(rt; chunk.count(), 0);
    }
}

#[test]
fn an_opening_that_is_refused(rt: HostRuntime) {
    everywhere::<Refused, HostRuntime>(&rt, 100);
}
