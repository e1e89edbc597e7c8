ghost use Rattle.std.specs.Prelude.{◌≡◌};
ghost use Rattle.packed.specs.Packing.{packed_sink, packed_store};
ghost use Rattle.sinks.specs.Sinks.{Written};
ghost use Rattle.slotted.specs.Slots.{slotted_sink, slotted_store};

use crate::both::holds;
use areas::Place;
use packed::PackedSink;
use sinks::{PageSink, SinkFault};
use slotted::SlottedSink;

// Holders of one sink, by its name: each passes writes on and gives the sink back. Two types, since a holder of any sink is
// the spool.
#[derive(Drop)]
struct HeldPacked<'a> {
    sink: PackedSink<'a>,
}

impl<'a> HeldPacked<'a> {
    fn append(&mut self, page: &[u8]) -> Result<usize, SinkFault>
        ensures { Written packed_store packed_sink self.old.sink page.now self.new.sink result }
    {
        self.sink.write(page)
    }

    fn into_sink(self) -> PackedSink<'a>
        ensures { result ≡ self.entry.sink }
    {
        self.sink
    }
}

#[derive(Drop)]
struct HeldSlotted<'a> {
    sink: SlottedSink<'a>,
}

impl<'a> HeldSlotted<'a> {
    fn append(&mut self, page: &[u8]) -> Result<usize, SinkFault>
        ensures { Written slotted_store slotted_sink self.old.sink page.now self.new.sink result }
    {
        self.sink.write(page)
    }

    fn into_sink(self) -> SlottedSink<'a>
        ensures { result ≡ self.entry.sink }
    {
        self.sink
    }
}

#[test]
fn a_packed_sink_is_written_where_it_is_held(rt: HostRuntime) {
    let mut area = [7; 8];
    let mut table = [Place { offset: 0, len: 0 }; 2];
    let mut held = HeldPacked {
        sink: PackedSink::new(&mut area, &mut table),
    };
    assert_eq!(rt; held.append(b"ab"), Ok(4));
    assert_eq!(rt; held.append(b"cde"), Err(SinkFault::Full(3)));
    let (area, _) = held.into_sink().into_parts();
    holds(&rt, area, b"PAR1ab\x07\x07");
}

#[test]
fn a_slotted_sink_is_written_where_it_is_held(rt: HostRuntime) {
    let mut area = [7; 8];
    let mut held = HeldSlotted {
        sink: SlottedSink::new(&mut area),
    };
    assert_eq!(rt; held.append(b"ab"), Ok(0));
    assert_eq!(rt; held.append(b"c"), Err(SinkFault::Full(1)));
    holds(
        &rt,
        held.into_sink().into_area(),
        b"ab\x07\x07\x00\x00\x02\x00",
    );
}
