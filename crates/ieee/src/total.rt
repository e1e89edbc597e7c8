ghost use Rattle.std.specs.Prelude.{◌≡◌, nat_lt};
ghost use Rattle.ieee.specs.TotalOrder.{above, rank};

use crate::pattern::Pattern;

// The place of a pattern in the total order, as a number: negative patterns from the back, then the others.
#[tactic(auto, using(crate::proofs::Ranks::rank_bits))]
pub fn rank<P: Pattern>(bits: P) -> u64
    ensures { result ≡ rank P.format (P.number bits) }
{
    let n = bits.to_u64();
    // The sign bit alone where it is clear, all bits where it is set, without a branch on the sign.
    n ^ ((n / P::SIGN).wrapping_neg() & (P::SIGN - 1) | P::SIGN)
}

// Whether the first pattern comes after the second in the total order: it has the greater rank.
pub fn total_greater<P: Pattern>(a: P, b: P) -> bool
    ensures order { result ≡ above P.format (P.number a) (P.number b) }
    ensures ranks { result ≡ nat_lt (rank P.format (P.number b)) (rank P.format (P.number a)) }
{
    rank(a) > rank(b)
}
