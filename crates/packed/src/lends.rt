ghost use Rattle.std.specs.Prelude.{◌≡◌, length};
ghost use Rattle.areas.specs.Areas.{Checked};
ghost use Rattle.packed.specs.Packing.{begun, Made, WellFormed, Imaged};

use crate::sink::PackedSink;
use crate::table::end;
use areas::{Place, allowed_area, check_area, lay};
use sinks::SinkFault;

const MAGIC: &[u8; 4] = b"PAR1";

// Writes PAR1 to the front of an area whose size is used.
fn begin(area: &mut [u8])
    ensures { area.new ≡ begun area.old }
{
    if allowed_area(area.len()) {
        lay(area, 0, MAGIC);
    }
}

impl<'a> PackedSink<'a> {
    // An empty sink. Over an area of a size that it does not use it writes nothing and takes nothing.
    pub fn new(area: &'a mut [u8], table: &'a mut [Place]) -> PackedSink<'a>
        ensures made { Made area.old table.old result }
        ensures lent { (result.area.ghost_name ≡ area.entry.ghost_name) × (result.table.ghost_name ≡ table.entry.ghost_name) }
    {
        begin(area);
        PackedSink {
            area,
            table,
            count: 0,
        }
    }

    // Whether the area has a size that the sink uses.
    pub fn check(&self) -> Result<(), SinkFault>
        ensures { Checked (length self.now.area.now) result }
    {
        check_area(self.area.len())
    }

    // PAR1 and behind it the pages, as they stand in the area.
    #[tactic(auto, using(crate::proofs::Growing::image_whole))]
    pub fn image(&self) -> &[u8]
        ensures { Imaged self.now result.now }
    {
        if !allowed_area(self.area.len()) {
            return &[];
        }
        let n = end(self.places()).min(self.area.len());
        &self.area[..n]
    }

    // Gives the area and the table back, as they stand: whatever was written, they are well formed.
    #[tactic(auto, using(crate::proofs::Growing::well_formed))]
    pub fn into_parts(self) -> (&'a mut [u8], &'a mut [Place])
        ensures formed { WellFormed self.entry }
        ensures area { result.0.now ≡ self.entry.area.now }
        ensures table { result.1.now ≡ self.entry.table.now }
        ensures lent { (result.0.ghost_name ≡ self.entry.area.ghost_name) × (result.1.ghost_name ≡ self.entry.table.ghost_name) }
    {
        (self.area, self.table)
    }
}
