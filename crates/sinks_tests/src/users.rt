ghost use Rattle.sinks_tests.specs.Users.{ReadBack};

use crate::both::holds;
use crate::spool::Spool;
use crate::two::write_two;
use areas::Place;
use packed::PackedSink;
use sinks::{PageSink, SinkFault};
use slotted::SlottedSink;

// What is proved for every sink, at each of the two: the first page comes back whole.
fn two_packed(
    area: &mut [u8],
    table: &mut [Place],
    first: &[u8],
    second: &[u8],
    out: &mut [u8],
) -> Result<Option<usize>, SinkFault>
    ensures { ReadBack first.now out.old out.new result }
{
    let mut sink = PackedSink::new(area, table);
    write_two(&mut sink, first, second, out)
}

fn two_slotted(
    area: &mut [u8],
    first: &[u8],
    second: &[u8],
    out: &mut [u8],
) -> Result<Option<usize>, SinkFault>
    ensures { ReadBack first.now out.old out.new result }
{
    let mut sink = SlottedSink::new(area);
    write_two(&mut sink, first, second, out)
}

#[test]
fn the_first_of_two_pages_comes_back(rt: HostRuntime) {
    let mut area = [7; 16];
    let mut table = [Place { offset: 0, len: 0 }; 2];
    let mut out = [9; 3];
    assert_eq!(rt;
        two_packed(&mut area, &mut table, b"ab", b"c", &mut out),
        Ok(Some(2))
    );
    assert_eq!(rt;
        two_slotted(&mut area, b"", b"0123456789", &mut out),
        Err(SinkFault::Full(10))
    );
    assert_eq!(rt; two_slotted(&mut area, b"c", b"d", &mut out), Ok(Some(1)));
    holds(&rt, &out, b"cb\x09");
}

#[test]
fn a_spool_holds_a_packed_sink_and_gives_it_back(rt: HostRuntime) {
    let mut area = [7; 8];
    let mut table = [Place { offset: 0, len: 0 }; 2];
    let mut spool = Spool::open(PackedSink::new(&mut area, &mut table));
    assert_eq!(rt; spool.takes(5), Err(SinkFault::Full(5)));
    assert_eq!(rt; spool.append(b"ab"), Ok(4));
    let (area, _) = spool.into_sink().into_parts();
    holds(&rt, area, b"PAR1ab\x07\x07");
}

#[test]
fn a_spool_counts_from_its_opening(rt: HostRuntime) {
    let mut area = [7; 11];
    let mut out = [9; 1];
    let mut before = Spool::open(SlottedSink::new(&mut area));
    assert_eq!(rt; before.append(b"ab"), Ok(0));
    let mut spool = Spool::open(before.into_sink());
    assert_eq!(rt; spool.append(b"c"), Ok(2));
    assert_eq!(rt; spool.read(0, &mut out), Some(1));
    holds(
        &rt,
        spool.into_sink().into_area(),
        b"abc\x02\x00\x01\x00\x00\x00\x02\x00",
    );
}
