ghost use Rattle.pages.specs.Layout.{PageSize, SizeIsLength};

use crate::layout::Layout;
use body_coder::BodyCoder;
use level_coder::LevelCoder;

// How many bytes a page of so many levels and plain bytes has.
#[tactic(auto, using(crate::proofs::Parts::size_is_length))]
pub fn page_size<L: LevelCoder, B: BodyCoder>(
    layout: Layout,
    levels: usize,
    plain: usize,
) -> Option<usize>
    ensures cases { PageSize L.LevelCoder.coding layout levels plain result }
    ensures length { SizeIsLength L.LevelCoder.coding B.BodyCoder.body layout }
{
    if plain > 8191 {
        return None;
    }
    let reps = layout.repetition().size::<L>(levels)?;
    let defs = layout.definition().size::<L>(levels)?;
    Some(reps + defs + plain)
}
