ghost use Rattle.kinds.specs.Cuts.{CutBelow, CutAbove};
ghost use Rattle.strings.specs.Cut.{lower, upper, Exactly};

use crate::increment::increment;

// The lower bound of bytes at the length: how long a front of the value, and whether that cuts it. A pair, as every kind's cuts
// answer.
pub fn truncate_min_value(value: &[u8], length: usize) -> (usize, bool)
    ensures { CutBelow (lower length value.now) value.now result }
{
    (value.len().min(length), length < value.len())
}

// Puts the upper bound of bytes at the length in the value's place: its length, and whether the value was cut.
#[tactic(auto, using(crate::proofs::Cuts::exactly_raised))]
pub fn truncate_max_value(value: &mut [u8], length: usize) -> (usize, bool)
    ensures bound { CutAbove (upper length value.old) value.old value.new result }
    ensures exactly { Exactly length value.old result.1 }
{
    if value.len() <= length {
        return (value.len(), false);
    }
    let raised = increment(&mut value[..length]);
    raised.map_or((value.len(), false), |()| (length, true))
}
