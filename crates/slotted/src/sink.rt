ghost use Rattle.std.specs.Prelude.{◌+◌, ◌*◌, ◌≤◌, length};
ghost use Rattle.areas.specs.Areas.{Tiles, Tiles-prop, end_of};
ghost use Rattle.slotted.specs.Pairs.{pairs};

// The last `count` pairs of the area are the places of the pages.
// Lent, since nothing is allocated.
#[derive(Drop)]
pub struct SlottedSink<'a> {
    pub(crate) area: &'a mut [u8],
    pub(crate) count: usize,
    ghost few: { 4 * count ≤ length area.now },
    ghost tiled: { Tiles 0 (pairs area.now count) } by { Tiles-prop 0 (pairs area.now count) },
    ghost apart: { end_of 0 (pairs area.now count) + 4 * count ≤ length area.now },
}
