// A due page that the sink does not take, and a sink that takes nothing.
use crate::helper::{
    Scene, Stage, done, everywhere, flat, limits, refusal, says, sums, values_only,
};
use body_coder::BodyCoder;
use ints::Int32;
use level_coder::LevelCoder;
use pages::PageFault;
use refusals::ChunkFault;
use sinks::{Layer, PageSink, SinkFault};
use std::process::Abort;

// Refuses each call that writes, while a page of 12 bytes waits, and leaves the scratch as it was.
fn refuses_all<A: Abort, L: LevelCoder, B: BodyCoder, S: PageSink>(
    rt: &A,
    chunk: &mut Stage<Int32, L, B, S>,
) {
    let waits = says(22, Layer::Chunk, 0);
    let full = ChunkFault::Page(PageFault::Sink(SinkFault::Full(12)));
    assert_eq!(rt; refusal(chunk.batch(values_only(&[4]))), waits);
    assert_eq!(rt; refusal(chunk.batch_short(values_only(&[4; 257]))), waits);
    assert_eq!(rt; chunk.cut(), Err(full));
    assert_eq!(rt; chunk.close(), Err(full));
    assert_eq!(rt; refusal(chunk.cut()), says(25, Layer::Sink, 0));
    assert_eq!(rt; refusal(chunk.cut_short()), says(3, Layer::Page, 0));
    assert_eq!(rt; refusal(chunk.close_short()), says(3, Layer::Page, 0));
    assert!(rt; chunk.has(&[]));
}

struct Waits;

// The sinks take pages of at most 8 bytes.
impl Scene for Waits {
    fn run<A: Abort, L: LevelCoder, B: BodyCoder, S: PageSink + Drop>(rt: &A, sink: S) {
        let mut chunk = Stage::<Int32, L, B, S>::open(flat(4), limits(3, 4096), sink);
        assert_eq!(rt; chunk.batch(values_only(&[1])), done(1, 0, 0));
        assert_eq!(rt; chunk.batch(values_only(&[2, 3])), done(2, 0, 25));
        refuses_all(rt, &mut chunk);
        refuses_all(rt, &mut chunk);
        assert_eq!(rt; refusal(chunk.record()), says(26, Layer::Chunk, 0));
        assert_eq!(rt; refusal(chunk.entry(0)), says(27, Layer::Page, 0));
        assert_eq!(rt; chunk.count(), 0);
        let sink = chunk.into_sink();
        let mut chunk = Stage::<Int32, L, B, S>::open(flat(4), limits(2, 4096), sink);
        assert_eq!(rt; chunk.batch(values_only(&[1, 2])), done(2, 1, 0));
    }
}

#[test]
fn a_page_waits(rt: HostRuntime) {
    everywhere::<Waits, HostRuntime>(&rt, 12);
}

struct Idle;

impl Scene for Idle {
    fn run<A: Abort, L: LevelCoder, B: BodyCoder, S: PageSink + Drop>(rt: &A, sink: S) {
        let mut chunk = Stage::<Int32, L, B, S>::open(flat(4), limits(2, 4096), sink);
        let full = says(25, Layer::Sink, 0);
        assert_eq!(rt; chunk.cut(), Ok(0));
        assert_eq!(rt; chunk.batch(values_only(&[1])), done(1, 0, 0));
        assert_eq!(rt; refusal(chunk.cut()), full);
        assert_eq!(rt; refusal(chunk.close()), full);
        // not due, so the chunk goes on until it is
        assert_eq!(rt; chunk.batch(values_only(&[2])), done(1, 0, 25));
        assert_eq!(rt; refusal(chunk.cut()), full);
        empty(
            rt,
            Stage::<Int32, L, B, S>::open(flat(4), limits(2, 4096), chunk.into_sink()),
        );
    }
}

// Closes a chunk without pages.
fn empty<A: Abort, L: LevelCoder, B: BodyCoder, S: PageSink + Drop>(
    rt: &A,
    chunk: Stage<Int32, L, B, S>,
) {
    let mut chunk = chunk;
    assert_eq!(rt; chunk.close(), Ok(0));
    assert!(rt; chunk.has(&[]));
    assert_eq!(rt; sums(chunk.record()), Some((0, 0, 0, 0)));
    let record = chunk.record();
    assert!(rt; record.is_ok_and(|record| record.min.is_none() && record.max.is_none()));
}

#[test]
fn an_area_that_is_too_small(rt: HostRuntime) {
    everywhere::<Idle, HostRuntime>(&rt, 3);
}

#[test]
fn an_area_that_is_too_large(rt: HostRuntime) {
    everywhere::<Idle, HostRuntime>(&rt, 65536);
}
