use crate::both::{answers, holds, idles, takes_just, three};
use areas::Place;
use packed::PackedSink;
use sinks::{PageSink, SinkFault};
use std::process::Abort;

const NONE: Place = Place { offset: 9, len: 9 };

fn refused(rt: &impl Abort, area: &mut [u8]) {
    let mut table = [NONE; 2];
    let mut sink = PackedSink::new(area, &mut table);
    assert_eq!(rt; sink.check(), Err(SinkFault::Area));
    idles(rt, &mut sink);
}

fn filled(rt: &impl Abort, area: &mut [u8], table: &mut [Place], page: &[u8], longer: &[u8]) {
    let mut sink = PackedSink::new(area, table);
    assert_eq!(rt; sink.check(), Ok(()));
    takes_just(rt, &mut sink, page, longer, 4);
    assert_eq!(rt; sink.takes(1), Err(SinkFault::Full(1)));
}

#[test]
fn an_area_of_3_is_refused(rt: HostRuntime) {
    let mut area = [7; 3];
    refused(&rt, &mut area);
    holds(&rt, &area, &[7, 7, 7]);
}

#[test]
fn an_area_of_65536_is_refused(rt: HostRuntime) {
    let mut area = [7; 65536];
    refused(&rt, &mut area);
    holds(&rt, &area[0..4], &[7, 7, 7, 7]);
}

#[test]
fn an_area_of_4_takes_only_empty_pages(rt: HostRuntime) {
    let mut area = [7; 4];
    filled(&rt, &mut area, &mut [NONE; 2], b"", b"a");
    holds(&rt, &area, b"PAR1");
}

#[test]
fn an_area_of_65535_takes_a_page_of_65531(rt: HostRuntime) {
    let mut area = [7; 65535];
    filled(&rt, &mut area, &mut [NONE; 2], &[1; 65531], &[1; 65532]);
    holds(&rt, &area[65533..65535], &[1, 1]);
}

#[test]
fn a_full_table_takes_nothing_more(rt: HostRuntime) {
    let mut area = [7; 12];
    let mut table = [NONE; 1];
    filled(&rt, &mut area, &mut table, b"ab", &[0; 9]);
    holds(&rt, &area, b"PAR1ab\x07\x07\x07\x07\x07\x07");
    assert_eq!(rt; table[0], Place { offset: 4, len: 2 });
}

#[test]
fn an_empty_table_takes_nothing(rt: HostRuntime) {
    let mut area = [7; 8];
    idles(&rt, &mut PackedSink::new(&mut area, &mut [NONE; 0]));
    holds(&rt, &area, b"PAR1\x07\x07\x07\x07");
}

#[test]
fn pages_follow_without_gaps(rt: HostRuntime) {
    let mut area = [7; 32];
    let mut table = [NONE; 4];
    let mut sink = PackedSink::new(&mut area, &mut table);
    three(&rt, &mut sink, 4, 6);
    answers(&rt, &sink);
    holds(&rt, sink.image(), b"PAR1abcdef");
}
