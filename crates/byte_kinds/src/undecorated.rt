ghost use Rattle.byte_kinds.specs.Kinds.{lexical, bytes_cuts};

use crate::content::Content;

// Bytes without a meaning of their own, compared unsigned and cut as bytes.
#[derive(Clone, Copy, PartialEq, Eq, Debug)]
pub struct Undecorated;

impl Content for Undecorated {
    ghost order = { lexical };

    ghost cuts = { bytes_cuts };

    fn compare_greater(a: &[u8], b: &[u8]) -> bool {
        strings::compare_greater(a, b)
    }

    fn truncate_min_value(value: &[u8], length: usize) -> (usize, bool) {
        strings::truncate_min_value(value, length)
    }

    fn truncate_max_value(value: &mut [u8], length: usize) -> (usize, bool) {
        strings::truncate_max_value(value, length)
    }
}
