ghost use Rattle.std.specs.Prelude.{◌≡◌, ◌+◌, ◌-◌, ◌*◌, ◌%◌, ◌^◌, nat_lt};
ghost use Rattle.ieee.specs.Formats.{datum, is_nan};

use crate::pattern::Pattern;

// Whether a pattern is NaN.
pub fn is_nan<P: Pattern>(bits: P) -> bool
    ensures { result ≡ is_nan (datum P.format (P.number bits)) }
{
    is_past_infinity(bits)
}

// Whether the bits below a pattern's sign lie past those of infinity.
fn is_past_infinity<P: Pattern>(bits: P) -> bool
    ensures { result ≡ nat_lt ((2 ^ P.format.exponent - 1) * 2 ^ P.format.significand) (P.number bits % 2 ^ (P.format.exponent + P.format.significand)) }
{
    bits.to_u64() % P::SIGN > P::INFINITY
}
