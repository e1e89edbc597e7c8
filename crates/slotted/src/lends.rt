ghost use Rattle.std.specs.Prelude.{◌≡◌, length};
ghost use Rattle.areas.specs.Areas.{Checked};
ghost use Rattle.slotted.specs.Slots.{Made, WellFormed};

use crate::sink::SlottedSink;
use areas::check_area;
use sinks::SinkFault;

impl<'a> SlottedSink<'a> {
    // An empty sink, which changes no byte. Over an area of a size that it does not use it takes nothing.
    pub fn new(area: &'a mut [u8]) -> SlottedSink<'a>
        ensures made { Made area.old result }
        ensures lent { result.area.ghost_name ≡ area.entry.ghost_name }
    {
        SlottedSink { area, count: 0 }
    }

    // Whether the area has a size that the sink uses.
    pub fn check(&self) -> Result<(), SinkFault>
        ensures { Checked (length self.now.area.now) result }
    {
        check_area(self.area.len())
    }

    // Gives the area back, as it stands: whatever was written, it is well formed.
    #[tactic(auto, using(crate::proofs::Growing::well_formed))]
    pub fn into_area(self) -> &'a mut [u8]
        ensures formed { WellFormed self.entry }
        ensures area { result.now ≡ self.entry.area.now }
        ensures lent { result.ghost_name ≡ self.entry.area.ghost_name }
    {
        self.area
    }
}
