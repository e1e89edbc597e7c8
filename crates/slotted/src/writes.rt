ghost use Rattle.std.specs.Prelude.{◌≡◌, true, length};
ghost use Rattle.sinks.specs.Sinks.{Grown};
ghost use Rattle.slotted.specs.Once.{once};
ghost use Rattle.slotted.specs.Slots.{slotted_sink, slotted_store, Added, end_in, gap, fits_in};

use crate::pairs::lay_with_pair;
use crate::sink::SlottedSink;
use areas::{allowed_area, fits};
use sinks::{PageSink, PageStore, SinkFault};

impl<'a> SlottedSink<'a> {
    // How many bytes lie between the pages and the pairs.
    fn gap(&self) -> usize
        ensures { result ≡ gap self.now }
    {
        (self.area.len() - 4 * self.count).saturating_sub(self.end())
    }

    fn has_room(&self, len: usize) -> bool
        ensures { result ≡ fits_in self.now len }
    {
        allowed_area(self.area.len()) && fits(len, 4, self.gap())
    }

    // Lays a page down that there is room for, and enters where it lies.
    fn put(&mut self, page: &[u8]) -> usize
        requires { fits_in self.old (length page.now) ≡ true }
        ensures at { result ≡ end_in self.old }
        ensures added { Added self.old page.now self.new }
    {
        let at = self.end();
        lay_with_pair(self.area, self.count, at, page);
        self.count += 1;
        at
    }

    // The same, as the sink's meaning has it. It stands apart so that a wrong byte is refused above, by itself.
    fn add(&mut self, page: &[u8]) -> usize
        requires { fits_in self.old (length page.now) ≡ true }
        ensures grown { Grown slotted_store self.old page.now result self.new }
        ensures added { Added self.old page.now self.new }
    {
        self.put(page)
    }
}

impl<'a> PageSink for SlottedSink<'a> {
    ghost meaning = { slotted_sink };

    // The same in both sinks, since `write` could not call a final method of its own trait.
    fn takes(&self, len: usize) -> Result<(), SinkFault> {
        if self.has_room(len) {
            Ok(())
        } else {
            Err(SinkFault::Full(len))
        }
    }

    fn write(&mut self, page: &[u8]) -> Result<usize, SinkFault> {
        self.takes(page.len())?;
        Ok(self.add(page))
    }

    ghost leaves_once = { once };
}
