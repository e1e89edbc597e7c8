ghost use Rattle.kinds.specs.Orders.{by_number};
ghost use Rattle.kinds.specs.Plain.{four};
ghost use Rattle.kinds.specs.declared.physical.PhysicalType.TheVariants.{Int32, Int64};
ghost use Rattle.words.specs.Words.{word, eight};
ghost use Rattle.ints.specs.Comparing.{greater_ℕ};

use crate::integer::Integer;
use crate::names::{UInt32, UInt64};
use kinds::{PhysicalType, ValueOf};
use words::Word;

impl Integer for u32 {
    const NUMBER: u8 = 2;

    ghost NUMBER = { 2 };

    const PHYSICAL_TYPE: PhysicalType = PhysicalType::Int32;

    ghost PHYSICAL_TYPE = { Int32 };

    ghost order = { by_number (word 4) };

    ghost order_law = { λ _ _. greater_ℕ _ _ };
}

impl ValueOf<UInt32> for u32 {
    ghost bytes = { four };

    fn as_bytes<'a>(&'a self, room: &'a mut [u8; 8]) -> &'a [u8] {
        u32::lend(*self, room)
    }
}

impl Integer for u64 {
    const NUMBER: u8 = 4;

    ghost NUMBER = { 4 };

    const PHYSICAL_TYPE: PhysicalType = PhysicalType::Int64;

    ghost PHYSICAL_TYPE = { Int64 };

    ghost order = { by_number (word 8) };

    ghost order_law = { λ _ _. greater_ℕ _ _ };
}

impl ValueOf<UInt64> for u64 {
    ghost bytes = { eight };

    fn as_bytes<'a>(&'a self, room: &'a mut [u8; 8]) -> &'a [u8] {
        self.lend(room)
    }
}
