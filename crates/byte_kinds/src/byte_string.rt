ghost use Rattle.std.specs.Prelude.{false};
ghost use Rattle.std.proofs.Common.{rules};
ghost use Rattle.std.proofs.lemmas.Bool.{false≢true};
ghost use Rattle.byte_kinds.specs.Kinds.{on};

use crate::content::Content;
use crate::storage::Storage;
use crate::text::Text;
use kinds::{Kind, PhysicalType, ValueOf};
use std::marker::PhantomData;

// The kind of a content on a physical type, with its own number.
#[derive(Clone, Copy, PartialEq, Eq, Debug)]
pub struct ByteString<C, S, const N: u8> {
    content: PhantomData<C>,
    storage: PhantomData<S>,
}

impl<C: Content, S: Storage, const N: u8> Kind for ByteString<C, S, N> {
    ghost meaning = { on S.PHYSICAL_TYPE S.WIDTH S.few N C.order C.cuts };

    const NUMBER: u8 = N;

    const PHYSICAL_TYPE: PhysicalType = S::PHYSICAL_TYPE;

    const WIDTH: Option<usize> = S::WIDTH;

    const HAS_NAN: bool = false;

    ghost NUMBER = { N };

    ghost PHYSICAL_TYPE = { S.PHYSICAL_TYPE };

    ghost WIDTH = { S.WIDTH };

    ghost HAS_NAN = { false };

    ghost described = { Prim.search rules };

    const HAS_RANKS: bool = false;

    ghost HAS_RANKS = { false };

    ghost rank = { λ _. 0 };

    ghost ranks_law = { λ has. absurd (false≢true has) };

    fn is_nan(_value: &[u8]) -> bool {
        Self::HAS_NAN
    }

    fn compare_greater(a: &[u8], b: &[u8]) -> bool {
        C::compare_greater(a, b)
    }

    fn rank(_value: &[u8]) -> u64 {
        0
    }

    fn truncate_min_value(value: &[u8], length: usize) -> (usize, bool) {
        C::truncate_min_value(value, length)
    }

    fn truncate_max_value(value: &mut [u8], length: usize) -> (usize, bool) {
        C::truncate_max_value(value, length)
    }
}

impl<'v, C, S, const N: u8> ValueOf<ByteString<C, S, N>> for &'v [u8] {
    ghost bytes = { λ v. v.now };

    fn as_bytes<'a>(&'a self, _room: &'a mut [u8; 8]) -> &'a [u8] {
        *self
    }
}

impl<'v, S, const N: u8> ValueOf<ByteString<Text, S, N>> for &'v str {
    ghost bytes = { λ v. v.now };

    fn as_bytes<'a>(&'a self, _room: &'a mut [u8; 8]) -> &'a [u8] {
        str::as_bytes(*self)
    }
}
