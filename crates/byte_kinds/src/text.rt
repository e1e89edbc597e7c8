ghost use Rattle.byte_kinds.specs.Kinds.{lexical, text_cuts};

use crate::content::Content;

// Text, compared as its bytes are and cut between characters.
#[derive(Clone, Copy, PartialEq, Eq, Debug)]
pub struct Text;

impl Content for Text {
    ghost order = { lexical };

    ghost cuts = { text_cuts };

    fn compare_greater(a: &[u8], b: &[u8]) -> bool {
        strings::compare_greater(a, b)
    }

    fn truncate_min_value(value: &[u8], length: usize) -> (usize, bool) {
        texts::truncate_min_value(value, length)
    }

    fn truncate_max_value(value: &mut [u8], length: usize) -> (usize, bool) {
        texts::truncate_max_value(value, length)
    }
}
