ghost use Rattle.round_trip.specs.Trips.{LevelsAgain};

use level_coder::LevelCoder;

// Codes the levels into `bytes`, and reads them back from there.
#[tactic(auto, using(crate::proofs::Again::levels_trip))]
pub fn levels_again<C: LevelCoder>(
    levels: &[u8],
    b: u32,
    bytes: &mut [u8],
    back: &mut [u8],
) -> Option<usize>
    ensures { LevelsAgain C.LevelCoder.coding b levels.now bytes.old bytes.new back.old back.new result }
{
    C::code(levels, b, bytes)?;
    C::read(bytes, levels.len(), b, back)
}
