ghost use Rattle.std.specs.Prelude.{◌≡◌, ◌+◌, ◌-◌, ◌*◌, ◌<◌, ◌≤◌, length};
ghost use Rattle.std.specs.List.{slice_get};
ghost use Rattle.areas.specs.Areas.{laid};
ghost use Rattle.slotted.specs.Pairs.{le16, pair_at, pair_bytes};
ghost use Rattle.slotted.specs.Slots.{places, end_in};

use crate::sink::SlottedSink;
use areas::{Place, lay};

// Where pair i stands.
fn slot(size: usize, i: usize) -> usize
    requires { 4 * (i + 1) ≤ size }
    ensures { result ≡ size - 4 * (i + 1) }
{
    size - 4 * (i + 1)
}

fn number(area: &[u8], at: usize) -> u32
    requires { at + 2 ≤ length area.now }
    ensures { result ≡ le16 area.now at }
{
    u32::from(u16::from_le_bytes([area[at], area[at + 1]]))
}

fn coded(offset: u16, len: u16) -> [u8; 4]
    ensures { result ≡ pair_bytes offset len }
{
    let [a, b] = offset.to_le_bytes();
    let [c, d] = len.to_le_bytes();
    [a, b, c, d]
}

// Writes pair i.
fn enter(area: &mut [u8], i: usize, offset: usize, len: usize)
    requires room { 4 * (i + 1) ≤ length area.old }
    requires small { offset + len ≤ 65535 }
    ensures { area.new ≡ laid area.old (length area.old - 4 * (i + 1)) (pair_bytes offset len) }
{
    let at = slot(area.len(), i);
    // Both fit 16 bits, as `small` says, so `as` loses nothing.
    lay(area, at, &coded(offset as u16, len as u16));
}

// Lays a page down at `at`, and writes pair i, which says where it lies.
#[tactic(auto, using(crate::proofs::Slotting::laid_length))]
pub(crate) fn lay_with_pair(area: &mut [u8], i: usize, at: usize, page: &[u8])
    requires room { 4 * (i + 1) ≤ length area.old }
    requires fits { at + length page.now ≤ length area.old }
    requires small { at + length page.now ≤ 65535 }
    ensures { area.new ≡ laid (laid area.old at page.now) (length area.old - 4 * (i + 1)) (pair_bytes at (length page.now)) }
{
    lay(area, at, page);
    enter(area, i, at, page.len());
}

impl<'a> SlottedSink<'a> {
    fn pair(&self, i: usize) -> Place
        requires { i < self.now.count }
        ensures { result ≡ pair_at self.now.area.now i }
    {
        let at = slot(self.area.len(), i);
        Place {
            offset: number(self.area, at),
            len: number(self.area, at + 2),
        }
    }

    // Where page k lies.
    #[tactic(auto, using(crate::proofs::Slotting::pair_here, crate::proofs::Slotting::pair_none))]
    pub(crate) fn place(&self, k: usize) -> Option<Place>
        ensures { result ≡ slice_get (places self.now) k }
    {
        // No `then`: its closure would have to say both clauses of `pair` again.
        if k < self.count {
            Some(self.pair(k))
        } else {
            None
        }
    }

    // Where the last page lies.
    #[tactic(auto, using(crate::proofs::Slotting::pair_none))]
    fn last(&self) -> Option<Place>
        ensures { result ≡ slice_get (places self.now) (self.now.count - 1) }
    {
        self.place(self.count.checked_sub(1)?)
    }

    // Where the pages end.
    #[tactic(auto, using(crate::proofs::Slotting::end_is))]
    pub(crate) fn end(&self) -> usize
        ensures { result ≡ end_in self.now }
    {
        self.last().map_or(0, Place::end)
    }
}
