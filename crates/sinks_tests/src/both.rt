// What both sinks must do, said once.
use sinks::{PageSink, PageStore, SinkFault};
use std::process::Abort;

// Arrays and slices of bytes, compared as slices.
pub(crate) fn holds(rt: &impl Abort, bytes: &[u8], wanted: &[u8]) {
    assert_eq!(rt; bytes, wanted);
}

// Takes nothing, and has nothing.
pub(crate) fn idles<S: PageSink>(rt: &impl Abort, sink: &mut S) {
    assert_eq!(rt; sink.takes(0), Err(SinkFault::Full(0)));
    assert_eq!(rt; sink.write(b""), Err(SinkFault::Full(0)));
    assert_eq!(rt; sink.offset(0), None);
    assert_eq!(rt; sink.count(), 0);
}

// Takes `page`, and nothing that is longer.
pub(crate) fn takes_just<S: PageSink>(
    rt: &impl Abort,
    sink: &mut S,
    page: &[u8],
    longer: &[u8],
    at: usize,
) {
    assert_eq!(rt; sink.write(longer), Err(SinkFault::Full(longer.len())));
    assert_eq!(rt; sink.takes(usize::MAX), Err(SinkFault::Full(usize::MAX)));
    assert_eq!(rt; sink.write(page), Ok(at));
    assert_eq!(rt; sink.len(0), Some(page.len()));
}

// Takes pages of two, no and four bytes.
pub(crate) fn three<S: PageSink>(rt: &impl Abort, sink: &mut S, first: usize, then: usize) {
    assert_eq!(rt; sink.write(b"ab"), Ok(first));
    assert_eq!(rt; sink.write(b""), Ok(then));
    assert_eq!(rt; sink.write(b"cdef"), Ok(then));
    assert_eq!(rt; sink.offset(2), Some(then));
    assert_eq!(rt; sink.count(), 3);
}

// Answers for those three.
pub(crate) fn answers<S: PageStore>(rt: &impl Abort, store: &S) {
    let mut out = [9; 3];
    assert_eq!(rt; store.len(2), Some(4));
    assert_eq!(rt; store.len(usize::MAX), None);
    assert_eq!(rt; store.copy(2, &mut out), None);
    holds(rt, &out, &[9, 9, 9]);
    assert_eq!(rt; store.copy(0, &mut out), Some(2));
    holds(rt, &out, b"ab\x09");
}
