ghost use Rattle.std.specs.Prelude.{◌≡◌, ℕ, List};
ghost use Rattle.std.specs.Ordering.{is_gt};
ghost use Rattle.kinds.specs.Orders.{Order};
ghost use Rattle.kinds.specs.declared.physical.PhysicalType.{PhysicalType as Physical};

use kinds::PhysicalType;
use words::Word;

// A type of integers whose values are those of a kind. `ValueOf` is another crate's, and an impl of it for every such
// type at once would be for a bare parameter, which the language refuses; so each type has one.
pub trait Integer: Word + Ord {
    // The kind's own number.
    const NUMBER: u8;

    ghost NUMBER: { ℕ };

    // The format's type that stores the values.
    const PHYSICAL_TYPE: PhysicalType;

    ghost PHYSICAL_TYPE: { Physical };

    // The order of the kind's values.
    ghost order: { Order };

    // Values are in the order of their integers.
    ghost order_law: { (a b : List ℕ) → order.greater a b ≡ is_gt (Self.cmp (Self.of_bytes a) (Self.of_bytes b)) };
}
