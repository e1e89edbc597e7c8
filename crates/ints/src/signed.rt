ghost use Rattle.std.specs.Int.{w32, w64};
ghost use Rattle.std.proofs.Common.{of_z, to_z};
ghost use Rattle.kinds.specs.Orders.{by_integer};
ghost use Rattle.kinds.specs.Plain.{four};
ghost use Rattle.kinds.specs.declared.physical.PhysicalType.TheVariants.{Int32, Int64};
ghost use Rattle.words.specs.Words.{word, eight};
ghost use Rattle.ints.specs.Comparing.{greater_ℤ};

use crate::integer::Integer;
use crate::names::{Int32, Int64};
use kinds::{PhysicalType, ValueOf};
use words::Word;

impl Integer for i32 {
    const NUMBER: u8 = 1;

    ghost NUMBER = { 1 };

    const PHYSICAL_TYPE: PhysicalType = PhysicalType::Int32;

    ghost PHYSICAL_TYPE = { Int32 };

    ghost order = { by_integer (λ v. to_z w32 (word 4 v)) };

    ghost order_law = { λ a b. greater_ℤ (to_z w32 (word 4 a)) (to_z w32 (word 4 b)) };
}

impl ValueOf<Int32> for i32 {
    ghost bytes = { λ v. four (of_z w32 v) };

    fn as_bytes<'a>(&'a self, room: &'a mut [u8; 8]) -> &'a [u8] {
        i32::lend(*self, room)
    }
}

impl Integer for i64 {
    const NUMBER: u8 = 3;

    ghost NUMBER = { 3 };

    const PHYSICAL_TYPE: PhysicalType = PhysicalType::Int64;

    ghost PHYSICAL_TYPE = { Int64 };

    ghost order = { by_integer (λ v. to_z w64 (word 8 v)) };

    ghost order_law = { λ a b. greater_ℤ (to_z w64 (word 8 a)) (to_z w64 (word 8 b)) };
}

impl ValueOf<Int64> for i64 {
    ghost bytes = { λ v. eight (of_z w64 v) };

    fn as_bytes<'a>(&'a self, room: &'a mut [u8; 8]) -> &'a [u8] {
        self.lend(room)
    }
}
