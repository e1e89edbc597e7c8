ghost use Rattle.std.specs.Prelude.{◌≡◌, ℕ, ◌+◌, ◌-◌, ◌*◌, ◌^◌, ◌<◌};
ghost use Rattle.std.proofs.Common.{refl, lit<};
ghost use Rattle.ieee.specs.Formats.{Format, binary16, binary32, binary64};

// A type whose values are the bit patterns of a format. The language has the conversion to `u64` for each type by itself, and
// takes no impl for a bare parameter, so each type has an impl.
pub trait Pattern: Copy {
    // The format.
    ghost format: { Format };

    // The significand has a bit to say that a NaN is quiet.
    ghost some: { 0 < format.significand };

    // The pattern as a number.
    ghost number: { Self → ℕ };

    // The weight of the sign bit.
    const SIGN: u64;

    ghost SIGN: { ℕ };

    // The pattern of infinity, without a sign.
    const INFINITY: u64;

    ghost INFINITY: { ℕ };

    // The pattern as a number: it has no bit above the sign's.
    fn to_u64(self) -> u64
        ensures number { result ≡ number self }
        ensures few { result < SIGN + SIGN };

    // The sign stands before the exponent and the significand.
    ghost sign_law: { SIGN ≡ 2 ^ (format.exponent + format.significand) };

    // Infinity is an exponent of ones, and nothing behind it.
    ghost infinity_law: { INFINITY ≡ (2 ^ format.exponent - 1) * 2 ^ format.significand };
}

impl Pattern for u16 {
    ghost format = { binary16 };

    ghost some = { lit< tt };

    ghost number = { λ n. n };

    ghost SIGN = { 2 ^ 15 };

    const SIGN: u64 = 0x8000;

    ghost INFINITY = { 31 * 2 ^ 10 };

    const INFINITY: u64 = 0x7C00;

    fn to_u64(self) -> u64 {
        u64::from(self)
    }

    ghost sign_law = { refl };

    ghost infinity_law = { refl };
}

impl Pattern for u32 {
    ghost format = { binary32 };

    ghost some = { lit< tt };

    ghost number = { λ n. n };

    ghost SIGN = { 2 ^ 31 };

    const SIGN: u64 = 0x8000_0000;

    ghost INFINITY = { 255 * 2 ^ 23 };

    const INFINITY: u64 = 0x7F80_0000;

    fn to_u64(self) -> u64 {
        u64::from(self)
    }

    ghost sign_law = { refl };

    ghost infinity_law = { refl };
}

impl Pattern for u64 {
    ghost format = { binary64 };

    ghost some = { lit< tt };

    ghost number = { λ n. n };

    ghost SIGN = { 2 ^ 63 };

    const SIGN: u64 = 0x8000_0000_0000_0000;

    ghost INFINITY = { 2047 * 2 ^ 52 };

    const INFINITY: u64 = 0x7FF0_0000_0000_0000;

    fn to_u64(self) -> u64 {
        self
    }

    ghost sign_law = { refl };

    ghost infinity_law = { refl };
}
