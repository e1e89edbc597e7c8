ghost use Rattle.std.specs.Prelude.{◌≡◌, ℕ, ◌≤◌, true, Some, None, Option};
ghost use Rattle.kinds.specs.Meaning.{admitted};
ghost use Rattle.kinds.specs.declared.physical.PhysicalType.{PhysicalType as Physical};
ghost use Rattle.kinds.specs.declared.physical.PhysicalType.TheVariants.{ByteArray, FixedLenByteArray};
ghost use Rattle.byte_kinds.specs.Kinds.{few_variable, few_fixed};

use kinds::PhysicalType;

// The physical type that byte strings have in the format, and the width that it fixes.
pub trait Storage: Copy {
    // The physical type, and the same as clauses see it.
    const PHYSICAL_TYPE: PhysicalType;

    ghost PHYSICAL_TYPE: { Physical };

    // 0 where each value has its own length, absent where each column has its own.
    const WIDTH: Option<usize>;

    ghost WIDTH: { Option ℕ };

    // Columns are at most 128 bytes wide.
    ghost few: { (w : ℕ) → admitted WIDTH w ≡ true → w ≤ 128 };
}

// BYTE_ARRAY: each value has its own length.
#[derive(Clone, Copy, PartialEq, Eq, Debug)]
pub struct OnByteArray;

impl Storage for OnByteArray {
    const PHYSICAL_TYPE: PhysicalType = PhysicalType::ByteArray;

    ghost PHYSICAL_TYPE = { ByteArray };

    const WIDTH: Option<usize> = Some(0);

    ghost WIDTH = { Some 0 };

    ghost few = { few_variable };
}

// FIXED_LEN_BYTE_ARRAY: each column has its own length.
#[derive(Clone, Copy, PartialEq, Eq, Debug)]
pub struct OnFixed;

impl Storage for OnFixed {
    const PHYSICAL_TYPE: PhysicalType = PhysicalType::FixedLenByteArray;

    ghost PHYSICAL_TYPE = { FixedLenByteArray };

    const WIDTH: Option<usize> = None;

    ghost WIDTH = { None };

    ghost few = { few_fixed };
}
