ghost use Rattle.std.specs.Prelude.{◌≡◌, true, length};
ghost use Rattle.sinks.specs.Sinks.{Grown};
ghost use Rattle.packed.specs.Once.{once};
ghost use Rattle.packed.specs.Packing.{packed_sink, packed_store, Added, end_in, fits_in};

use crate::sink::PackedSink;
use crate::table::{end, enter};
use areas::{allowed_area, fits, lay};
use sinks::{PageSink, PageStore, SinkFault};

impl<'a> PackedSink<'a> {
    fn has_room(&self, len: usize) -> bool
        ensures { result ≡ fits_in self.now len }
    {
        allowed_area(self.area.len())
            && self.count < self.table.len()
            && fits(end(self.places()), len, self.area.len())
    }

    // Lays a page down that there is room for, and enters where it lies.
    fn put(&mut self, page: &[u8]) -> usize
        requires { fits_in self.old (length page.now) ≡ true }
        ensures at { result ≡ end_in self.old }
        ensures added { Added self.old page.now self.new }
    {
        let at = end(self.places());
        enter(self.table, self.count, at, page.len());
        lay(self.area, at, page);
        self.count += 1;
        at
    }

    // The same, as the sink's meaning has it. It stands apart so that a wrong byte is refused above, by itself.
    fn add(&mut self, page: &[u8]) -> usize
        requires { fits_in self.old (length page.now) ≡ true }
        ensures grown { Grown packed_store self.old page.now result self.new }
        ensures added { Added self.old page.now self.new }
    {
        self.put(page)
    }
}

impl<'a> PageSink for PackedSink<'a> {
    ghost meaning = { packed_sink };

    // The same in both sinks, since `write` could not call a final method of its own trait.
    fn takes(&self, len: usize) -> Result<(), SinkFault> {
        if self.has_room(len) {
            Ok(())
        } else {
            Err(SinkFault::Full(len))
        }
    }

    fn write(&mut self, page: &[u8]) -> Result<usize, SinkFault> {
        self.takes(page.len())?;
        Ok(self.add(page))
    }

    ghost leaves_once = { once };
}
