ghost use Rattle.std.specs.Prelude.{◌≡◌, ◌+◌, ◌≤◌, length, Decides};
ghost use Rattle.bits.specs.Packing.{Room};
ghost use Rattle.levels.specs.Lists.{Limits, Wrote, Took};

use crate::header::Header;
use bits::BitOrder;

// Whether a coder takes `n` levels of `b` bits. A test, and not an Option: the list that is built behind it needs the fact.
pub(crate) fn admits(n: usize, b: u32) -> bool
    ensures { Decides result (Limits n b) }
{
    n <= 1024 && b <= 4
}

// Where `n` levels of `b` bits stand: behind a header, in `len` bytes. The order of bits is no part of it, since nothing of
// the list depends on it: a coder names its order where it writes and where it reads.
#[derive(Drop)]
pub(crate) struct LevelList {
    pub(crate) header: Header,
    pub(crate) n: usize,
    pub(crate) b: u32,
    pub(crate) len: usize,
    ghost room: { Room n b len },
}

impl LevelList {
    // How many bytes the header and the levels take.
    pub(crate) fn size(&self) -> usize
        ensures { result ≡ length self.now.header + self.now.len }
    {
        self.header.as_slice().len() + self.len
    }

    // Writes the header and the levels to the front of `out`, and answers how many bytes these are.
    pub(crate) fn write(&self, order: BitOrder, levels: &[u8], out: &mut [u8]) -> Option<usize>
        requires { length levels.now ≡ self.now.n }
        ensures { Wrote order self.now.header self.now.len self.now.b levels.now out.old out.new result }
    {
        let front = self.header.as_slice();
        let at = front.len();
        let size = at + self.len;
        // A test and a range: behind `get_mut` the proof knows no byte of the list.
        if out.len() < size {
            return None;
        }
        bits::pack(order, levels, self.b, &mut out[at..size])?;
        out[..at].copy_from_slice(front);
        Some(size)
    }

    // Reads the levels that stand behind the header to the front of `levels`, and answers how many bytes these are with it.
    pub(crate) fn read(&self, order: BitOrder, bytes: &[u8], levels: &mut [u8]) -> Option<usize>
        ensures { Took order self.now.header self.now.len self.now.b self.now.n bytes.now levels.old levels.new result }
    {
        let behind = bytes.strip_prefix(self.header.as_slice())?;
        let body = behind.get(..self.len)?;
        // A test and a range: behind `get_mut` the proof knows no level.
        if levels.len() < self.n {
            return None;
        }
        bits::unpack(order, body, self.b, &mut levels[..self.n])?;
        Some(self.size())
    }
}
