use crate::both::{answers, holds, idles, takes_just, three};
use sinks::{PageSink, SinkFault};
use slotted::SlottedSink;
use std::process::Abort;

fn refused(rt: &impl Abort, area: &mut [u8]) {
    let mut sink = SlottedSink::new(area);
    assert_eq!(rt; sink.check(), Err(SinkFault::Area));
    idles(rt, &mut sink);
}

fn filled(rt: &impl Abort, area: &mut [u8], page: &[u8], longer: &[u8]) {
    let mut sink = SlottedSink::new(area);
    assert_eq!(rt; sink.check(), Ok(()));
    takes_just(rt, &mut sink, page, longer, 0);
    assert_eq!(rt; sink.takes(0), Err(SinkFault::Full(0)));
}

#[test]
fn an_area_of_3_is_refused(rt: HostRuntime) {
    let mut area = [7; 3];
    refused(&rt, &mut area);
    holds(&rt, &area, &[7, 7, 7]);
}

#[test]
fn an_area_of_65536_is_refused(rt: HostRuntime) {
    let mut area = [7; 65536];
    refused(&rt, &mut area);
    holds(&rt, &area[65532..65536], &[7, 7, 7, 7]);
}

#[test]
fn an_area_of_4_takes_one_empty_page(rt: HostRuntime) {
    let mut area = [7; 4];
    filled(&rt, &mut area, b"", b"a");
    holds(&rt, &area, &[0, 0, 0, 0]);
}

#[test]
fn an_area_of_65535_takes_a_page_of_65531(rt: HostRuntime) {
    let mut area = [7; 65535];
    filled(&rt, &mut area, &[1; 65531], &[1; 65532]);
    holds(&rt, &area[65530..65535], &[1, 0, 0, 251, 255]);
}

#[test]
fn pages_from_the_front_and_pairs_from_the_back(rt: HostRuntime) {
    let mut area = [7; 19];
    let mut sink = SlottedSink::new(&mut area);
    three(&rt, &mut sink, 0, 2);
    answers(&rt, &sink);
    holds(
        &rt,
        sink.into_area(),
        b"abcdef\x07\x02\x00\x04\x00\x02\x00\x00\x00\x00\x00\x02\x00",
    );
}
