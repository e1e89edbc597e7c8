ghost use Rattle.std.specs.Prelude.{true, Some};
ghost use Rattle.std.proofs.Common.{rules};
ghost use Rattle.kinds.specs.Meaning.{thrift};
ghost use Rattle.ieee.specs.TotalOrder.{rank};
ghost use Rattle.ieee.proofs.Ranks.{above-rank};
ghost use Rattle.words.specs.Words.{few, word};
ghost use Rattle.floats.specs.Floats.{floating};

use crate::floating::Floating;
use ieee::{is_nan, rank, total_greater};
use kinds::{Kind, PhysicalType, truncate_none_max, truncate_none_min};
use std::marker::PhantomData;

// The kind of the bit patterns of a type, in the total order.
#[derive(Clone, Copy, PartialEq, Eq, Debug)]
pub struct FloatKind<B> {
    pattern: PhantomData<B>,
}

impl<B: Floating> Kind for FloatKind<B> {
    ghost meaning = { floating B.NUMBER (thrift B.PHYSICAL_TYPE) B.WIDTH (few B.few) B.format B.some };

    const NUMBER: u8 = B::NUMBER;

    const PHYSICAL_TYPE: PhysicalType = B::PHYSICAL_TYPE;

    const WIDTH: Option<usize> = Some(B::WIDTH);

    const HAS_NAN: bool = true;

    ghost NUMBER = { B.NUMBER };

    ghost PHYSICAL_TYPE = { B.PHYSICAL_TYPE };

    ghost WIDTH = { Some B.WIDTH };

    ghost HAS_NAN = { true };

    ghost described = { Prim.search rules };

    const HAS_RANKS: bool = true;

    ghost HAS_RANKS = { true };

    ghost rank = { λ v. rank B.format (word B.WIDTH v) };

    ghost ranks_law = { λ _ a b. above-rank B.format B.some (word B.WIDTH a) (word B.WIDTH b) };

    fn is_nan(value: &[u8]) -> bool {
        is_nan(B::read(value))
    }

    fn compare_greater(a: &[u8], b: &[u8]) -> bool {
        total_greater(B::read(a), B::read(b))
    }

    fn rank(value: &[u8]) -> u64 {
        rank(B::read(value))
    }

    fn truncate_min_value(value: &[u8], _length: usize) -> (usize, bool) {
        truncate_none_min(value)
    }

    fn truncate_max_value(value: &mut [u8], _length: usize) -> (usize, bool) {
        truncate_none_max(value)
    }
}
