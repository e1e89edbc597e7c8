// The directory of a packed sink: the first pairs of a lent table.
ghost use Rattle.std.specs.Prelude.{◌≡◌, ◌+◌, ◌<◌, ◌≤◌, length, set};
ghost use Rattle.areas.specs.Areas.{end_of};

use areas::Place;

// Where the last page ends; PAR1 stands before the first.
#[tactic(auto, using(areas::proofs::Tiling::end_last))]
pub(crate) fn end(places: &[Place]) -> usize
    ensures { result ≡ end_of 4 places.now }
{
    places.last().copied().map_or(4, Place::end)
}

// Enters a page of `len` bytes at `at` behind the first `count`.
pub(crate) fn enter(table: &mut [Place], count: usize, at: usize, len: usize)
    requires room { count < length table.old }
    requires small { at + len ≤ 65535 }
    ensures { table.new ≡ set table.old count (record { offset = at; len = len }) }
{
    // Both fit 32 bits, as `small` says, so `as` loses nothing.
    table[count] = Place {
        offset: at as u32,
        len: len as u32,
    };
}
