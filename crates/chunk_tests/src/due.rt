// When a page is due, and that a due page is cut within the batch.
use crate::helper::{Scene, Stage, done, everywhere, flat, limits, values_only};
use body_coder::BodyCoder;
use byte_kinds::FixedLenByteArray;
use ints::Int32;
use level_coder::LevelCoder;
use sinks::{PageSink, PageStore};
use std::process::Abort;

// Takes two values and then one more, which makes a page due or does not; a page that is cut is left in the scratch.
fn third<A: Abort, L: LevelCoder, B: BodyCoder, S: PageSink + Drop>(
    rt: &A,
    chunk: &mut Stage<Int32, L, B, S>,
    cut: usize,
) {
    let before = chunk.count();
    assert_eq!(rt; chunk.batch(values_only(&[0x0A, 0x0B])), done(2, 0, 0));
    assert_eq!(rt; chunk.batch(values_only(&[0x0C])), done(1, cut, 0));
    assert_eq!(rt; chunk.count().checked_sub(before), Some(cut));
    let mut page = [0; 12];
    let size = chunk.sink().copy(before, &mut page);
    assert_eq!(rt; size, (cut == 1).then_some(12));
    assert!(rt; chunk.has(&page[..12 * cut.min(1)]));
}

struct Rows;

impl Scene for Rows {
    fn run<A: Abort, L: LevelCoder, B: BodyCoder, S: PageSink + Drop>(rt: &A, sink: S) {
        let mut chunk = Stage::<Int32, L, B, S>::open(flat(4), limits(3, 4096), sink);
        third(rt, &mut chunk, 1);
        third(rt, &mut chunk, 1);
        let mut chunk = Stage::<Int32, L, B, S>::open(flat(4), limits(4, 4096), chunk.into_sink());
        third(rt, &mut chunk, 0);
    }
}

struct Bytes;

impl Scene for Bytes {
    fn run<A: Abort, L: LevelCoder, B: BodyCoder, S: PageSink + Drop>(rt: &A, sink: S) {
        let mut chunk = Stage::<Int32, L, B, S>::open(flat(4), limits(512, 12), sink);
        third(rt, &mut chunk, 1);
        third(rt, &mut chunk, 1);
        let mut chunk = Stage::<Int32, L, B, S>::open(flat(4), limits(512, 13), chunk.into_sink());
        third(rt, &mut chunk, 0);
    }
}

#[test]
fn due_by_rows(rt: HostRuntime) {
    everywhere::<Rows, HostRuntime>(&rt, 100);
}

#[test]
fn due_by_plain_bytes(rt: HostRuntime) {
    everywhere::<Bytes, HostRuntime>(&rt, 100);
}

struct Largest;

impl Scene for Largest {
    fn run<A: Abort, L: LevelCoder, B: BodyCoder, S: PageSink + Drop>(rt: &A, sink: S) {
        let value: &[u8] = &[5; 16];
        let mut chunk = Stage::<FixedLenByteArray, L, B, S>::open(
            flat(16),
            limits(512, 4096),
            sink,
        );
        // 255 values of 16 bytes, and then 256: a page of 8,176 bytes
        assert_eq!(rt; chunk.batch(values_only(&[value; 255])), done(255, 0, 0));
        assert_eq!(rt; chunk.batch(values_only(&[value; 256])), done(256, 1, 0));
        assert!(rt; chunk.entry(0).is_ok_and(|entry| entry.size == 8176));
    }
}

#[test]
fn two_heavy_batches(rt: HostRuntime) {
    everywhere::<Largest, HostRuntime>(&rt, 9000);
}
