ghost use Rattle.std.specs.Prelude.{◌≡◌};
ghost use Rattle.std.specs.List.{slice_get};
ghost use Rattle.packed.specs.Packing.{packed_store, places};

use crate::sink::PackedSink;
use areas::{Place, copy_at, len_at, offset_at};
use sinks::PageStore;

impl<'a> PackedSink<'a> {
    // Where the pages lie.
    pub(crate) fn places(&self) -> &[Place]
        ensures { result.now ≡ places self.now }
    {
        &self.table[..self.count]
    }

    // Where page k lies.
    fn place(&self, k: usize) -> Option<Place>
        ensures { result ≡ slice_get (places self.now) k }
    {
        self.places().get(k).copied()
    }
}

// The slotted sink has the same four lines: one impl for both would have to stand in `sinks`, which implements nothing.
impl<'a> PageStore for PackedSink<'a> {
    ghost meaning = { packed_store };

    fn count(&self) -> usize {
        self.places().len()
    }

    fn offset(&self, k: usize) -> Option<usize> {
        offset_at(self.place(k))
    }

    fn len(&self, k: usize) -> Option<usize> {
        len_at(self.area, self.place(k))
    }

    fn copy(&self, k: usize, out: &mut [u8]) -> Option<usize> {
        copy_at(self.area, self.place(k), out)
    }
}
