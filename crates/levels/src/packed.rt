ghost use Rattle.std.specs.Prelude.{◌≡◌, refl, ◌*◌};
ghost use Rattle.bits.specs.Packing.{groups};
ghost use Rattle.levels.specs.Coders.{packed_coding};
ghost use Rattle.levels.specs.Formats.{header};
ghost use Rattle.levels.specs.Layouts.{LaidOut};

use crate::header::Header;
use crate::list::{LevelList, admits};
use bits::BitOrder;
use level_coder::LevelCoder;

// The format's RLE, as one bit-packed run. Version 1 puts a length before it.
#[derive(Clone, Copy, PartialEq, Eq, Debug)]
pub struct Packed;

// The list of `n` levels of `b` bits: its header, and the groups of eight that hold them.
fn list_of(n: usize, b: u32) -> Option<LevelList>
    ensures { LaidOut (header n) (groups n * b) n b result }
{
    if !admits(n, b) {
        return None;
    }
    Some(LevelList {
        header: Header::of(n),
        n,
        b,
        // By `as`, since no `From` takes a `u32` to a `usize`.
        len: n.div_ceil(8) * b as usize,
    })
}

// The list comes from a function of each coder's own, since a header and a length can be computed only behind the test.
impl LevelCoder for Packed {
    ghost coding = { packed_coding };

    const ENCODING: u8 = 3;

    const FRAMED: bool = true;

    const VERSION_2: bool = true;

    ghost ENCODING = { packed_coding.number };

    ghost FRAMED = { packed_coding.framed };

    ghost VERSION_2 = { packed_coding.second };

    ghost constants_agree = { (refl, refl, refl) };

    fn size(n: usize, b: u32) -> Option<usize> {
        Some(list_of(n, b)?.size())
    }

    fn code(levels: &[u8], b: u32, out: &mut [u8]) -> Option<usize> {
        list_of(levels.len(), b)?.write(BitOrder::LeastFirst, levels, out)
    }

    fn read(bytes: &[u8], n: usize, b: u32, levels: &mut [u8]) -> Option<usize> {
        list_of(n, b)?.read(BitOrder::LeastFirst, bytes, levels)
    }
}
