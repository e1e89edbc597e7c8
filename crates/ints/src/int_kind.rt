ghost use Rattle.std.specs.Prelude.{false, Some};
ghost use Rattle.std.proofs.Common.{rules};
ghost use Rattle.std.proofs.lemmas.Bool.{false≢true};
ghost use Rattle.kinds.specs.Meaning.{thrift};
ghost use Rattle.ints.specs.Ints.{integers};
ghost use Rattle.words.specs.Words.{few};

use crate::integer::Integer;
use kinds::{Kind, PhysicalType, truncate_none_max, truncate_none_min};
use std::marker::PhantomData;

// The kind of the integers of a type, in their order.
#[derive(Clone, Copy, PartialEq, Eq, Debug)]
pub struct IntKind<T> {
    integer: PhantomData<T>,
}

impl<T: Integer> Kind for IntKind<T> {
    ghost meaning = { integers T.NUMBER (thrift T.PHYSICAL_TYPE) T.WIDTH (few T.few) T.order };

    const NUMBER: u8 = T::NUMBER;

    const PHYSICAL_TYPE: PhysicalType = T::PHYSICAL_TYPE;

    const WIDTH: Option<usize> = Some(T::WIDTH);

    const HAS_NAN: bool = false;

    ghost NUMBER = { T.NUMBER };

    ghost PHYSICAL_TYPE = { T.PHYSICAL_TYPE };

    ghost WIDTH = { Some T.WIDTH };

    ghost HAS_NAN = { false };

    ghost described = { Prim.search rules };

    const HAS_RANKS: bool = false;

    ghost HAS_RANKS = { false };

    ghost rank = { λ _. 0 };

    ghost ranks_law = { λ has. absurd (false≢true has) };

    fn is_nan(_value: &[u8]) -> bool {
        false
    }

    fn compare_greater(a: &[u8], b: &[u8]) -> bool {
        T::read(a) > T::read(b)
    }

    fn rank(_value: &[u8]) -> u64 {
        0
    }

    fn truncate_min_value(value: &[u8], _length: usize) -> (usize, bool) {
        truncate_none_min(value)
    }

    fn truncate_max_value(value: &mut [u8], _length: usize) -> (usize, bool) {
        truncate_none_max(value)
    }
}
