ghost use Rattle.std.specs.Prelude.{◌≡◌, ℕ, List};
ghost use Rattle.std.proofs.Common.{refl};
ghost use Rattle.kinds.specs.declared.physical.PhysicalType.{PhysicalType as Physical};
ghost use Rattle.kinds.specs.declared.physical.PhysicalType.TheVariants.{Float, Double, FixedLenByteArray};
ghost use Rattle.words.specs.Words.{word};

use ieee::Pattern;
use kinds::PhysicalType;
use words::Word;

// A type of bit patterns whose values are those of a kind.
pub trait Floating: Pattern + Word {
    // The kind's own number.
    const NUMBER: u8;

    ghost NUMBER: { ℕ };

    // The format's type that stores the values.
    const PHYSICAL_TYPE: PhysicalType;

    ghost PHYSICAL_TYPE: { Physical };

    // The pattern that a value begins with is the number of its first bytes.
    ghost number_law: { (v : List ℕ) → Self.number (Self.of_bytes v) ≡ word Self.WIDTH v };
}

impl Floating for u32 {
    const NUMBER: u8 = 5;

    ghost NUMBER = { 5 };

    const PHYSICAL_TYPE: PhysicalType = PhysicalType::Float;

    ghost PHYSICAL_TYPE = { Float };

    ghost number_law = { λ _. refl };
}

impl Floating for u64 {
    const NUMBER: u8 = 6;

    ghost NUMBER = { 6 };

    const PHYSICAL_TYPE: PhysicalType = PhysicalType::Double;

    ghost PHYSICAL_TYPE = { Double };

    ghost number_law = { λ _. refl };
}

impl Floating for u16 {
    const NUMBER: u8 = 7;

    ghost NUMBER = { 7 };

    const PHYSICAL_TYPE: PhysicalType = PhysicalType::FixedLenByteArray;

    ghost PHYSICAL_TYPE = { FixedLenByteArray };

    ghost number_law = { λ _. refl };
}
