ghost use Rattle.std.specs.Prelude.{◌≤◌, length, take};
ghost use Rattle.areas.specs.Areas.{Tiles, Tiles-prop};
ghost use Rattle.packed.specs.Kept.{Begins, Begins-prop, Within, Within-prop};

use areas::Place;

// The first `count` pairs of the table are the places of the pages.
// Lent, since nothing is allocated.
#[derive(Drop)]
pub struct PackedSink<'a> {
    pub(crate) area: &'a mut [u8],
    pub(crate) table: &'a mut [Place],
    pub(crate) count: usize,
    ghost few: { count ≤ length table.now },
    ghost tiled: { Tiles 4 (take count table.now) } by { Tiles-prop 4 (take count table.now) },
    ghost begins: { Begins area.now } by { Begins-prop area.now },
    ghost within: { Within area.now (take count table.now) } by { Within-prop area.now (take count table.now) },
}
