ghost use Rattle.std.specs.Prelude.{◌≡◌, refl, ◌*◌, []};
ghost use Rattle.levels.specs.Coders.{legacy_coding};
ghost use Rattle.levels.specs.Formats.{bytes_for};
ghost use Rattle.levels.specs.Layouts.{LaidOut};

use crate::header::Header;
use crate::list::{LevelList, admits};
use bits::BitOrder;
use level_coder::LevelCoder;

// The format's BIT_PACKED: deprecated, version 1 only, and no length before it.
#[derive(Clone, Copy, PartialEq, Eq, Debug)]
pub struct Legacy;

// The list of `n` levels of `b` bits: its bytes, the last one filled, and no header.
#[tactic(auto, using(crate::proofs::Rooms::legacy_room))]
fn list_of(n: usize, b: u32) -> Option<LevelList>
    ensures { LaidOut [] (bytes_for (n * b)) n b result }
{
    if !admits(n, b) {
        return None;
    }
    Some(LevelList {
        header: Header::none(),
        n,
        b,
        // By `as`, since no `From` takes a `u32` to a `usize`.
        len: (n * b as usize).div_ceil(8),
    })
}

// The list comes from a function of each coder's own, since a header and a length can be computed only behind the test.
impl LevelCoder for Legacy {
    ghost coding = { legacy_coding };

    const ENCODING: u8 = 4;

    const FRAMED: bool = false;

    const VERSION_2: bool = false;

    ghost ENCODING = { legacy_coding.number };

    ghost FRAMED = { legacy_coding.framed };

    ghost VERSION_2 = { legacy_coding.second };

    ghost constants_agree = { (refl, refl, refl) };

    fn size(n: usize, b: u32) -> Option<usize> {
        Some(list_of(n, b)?.size())
    }

    fn code(levels: &[u8], b: u32, out: &mut [u8]) -> Option<usize> {
        list_of(levels.len(), b)?.write(BitOrder::MostFirst, levels, out)
    }

    fn read(bytes: &[u8], n: usize, b: u32, levels: &mut [u8]) -> Option<usize> {
        list_of(n, b)?.read(BitOrder::MostFirst, bytes, levels)
    }
}
