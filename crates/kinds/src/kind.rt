ghost use Rattle.std.specs.Prelude.{◌≡◌, ℕ, Bool, true, List, Option, nat_lt};
ghost use Rattle.kinds.specs.Cuts.{CutBelow, CutAbove};
ghost use Rattle.kinds.specs.Meaning.{Meaning, Describes, admitted, greater};
ghost use Rattle.kinds.specs.declared.physical.PhysicalType.{PhysicalType as Physical};

use crate::descriptor::Descriptor;
use crate::physical::PhysicalType;

// A kind of values, by its meaning. Values and bounds are byte strings, without a length before them.
pub trait Kind: Copy {
    ghost meaning: { Meaning };

    // The kind's own number, as the rules list them.
    const NUMBER: u8;

    ghost NUMBER: { ℕ };

    // The format's type that stores the values.
    const PHYSICAL_TYPE: PhysicalType;

    ghost PHYSICAL_TYPE: { Physical };

    // Bytes of a value, 0 where each value has its own length, absent where each column has its own.
    const WIDTH: Option<usize>;

    ghost WIDTH: { Option ℕ };

    // Whether some values are NaN.
    const HAS_NAN: bool;

    ghost HAS_NAN: { Bool };

    // Whether the order is that of ranks: numbers, for an order that is dearer to tell by the bytes.
    const HAS_RANKS: bool;

    ghost HAS_RANKS: { Bool };

    ghost rank: { List ℕ → ℕ };

    // What has the higher rank is greater.
    ghost ranks_law: { HAS_RANKS ≡ true → (a b : List ℕ) → greater meaning a b ≡ nat_lt (rank b) (rank a) };

    // Whether a value is NaN.
    fn is_nan(value: &[u8]) -> bool
        ensures { result ≡ meaning.nan value.now };

    // Whether a is greater than b, values or bounds.
    fn compare_greater(a: &[u8], b: &[u8]) -> bool
        ensures { result ≡ greater meaning a.now b.now };

    // The rank of a value or bound. It tells nothing where the order is not that of ranks.
    fn rank(value: &[u8]) -> u64
        ensures { result ≡ rank value.now };

    // The lower bound of a value at the length: how long a front of it, and whether that cuts it. As in the Rust crate, both
    // cuts answer a pair: the length is there whether or not the value was cut.
    fn truncate_min_value(value: &[u8], length: usize) -> (usize, bool)
        ensures { CutBelow (meaning.cuts.lower length value.now) value.now result };

    // Puts the upper bound of a value at the length in its place, and answers its length and whether it was cut.
    fn truncate_max_value(value: &mut [u8], length: usize) -> (usize, bool)
        ensures { CutAbove (meaning.cuts.upper length value.old) value.old value.new result };

    // What the constants say of the kind.
    final fn descriptor() -> Descriptor
        ensures { Describes meaning result }
    {
        Descriptor {
            number: Self::NUMBER,
            physical_type: Self::PHYSICAL_TYPE,
            width: Self::WIDTH,
            has_nan: Self::HAS_NAN,
        }
    }

    // The constants are those of the meaning.
    ghost described: { Describes meaning (record { number = NUMBER; physical_type = PHYSICAL_TYPE; width = WIDTH; has_nan = HAS_NAN }) };
}

// Whether a column of the kind may have the width.
pub fn admits_width<K: Kind>(width: usize) -> bool
    ensures { result ≡ admitted K.Kind.meaning.width width }
{
    K::descriptor()
        .width
        .map_or(1 <= width && width <= 128, |fixed| width == fixed)
}
