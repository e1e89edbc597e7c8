ghost use Rattle.slotted.specs.Slots.{slotted_store};

use crate::sink::SlottedSink;
use areas::{copy_at, len_at, offset_at};
use sinks::PageStore;

// The packed sink has the same four lines: one impl for both would have to stand in `sinks`, which implements nothing.
impl<'a> PageStore for SlottedSink<'a> {
    ghost meaning = { slotted_store };

    #[tactic(auto, using(crate::proofs::Slotting::count_is))]
    fn count(&self) -> usize {
        self.count
    }

    fn offset(&self, k: usize) -> Option<usize> {
        offset_at(self.place(k))
    }

    fn len(&self, k: usize) -> Option<usize> {
        len_at(self.area, self.place(k))
    }

    fn copy(&self, k: usize, out: &mut [u8]) -> Option<usize> {
        copy_at(self.area, self.place(k), out)
    }
}
