ghost use Rattle.kinds.specs.Cuts.{uncut};
ghost use Rattle.decimals.specs.Decimals.{decimal};

use crate::content::Content;

// A number in two's complement, compared as a number and never cut.
#[derive(Clone, Copy, PartialEq, Eq, Debug)]
pub struct Decimal;

impl Content for Decimal {
    ghost order = { decimal };

    ghost cuts = { uncut decimal };

    fn compare_greater(a: &[u8], b: &[u8]) -> bool {
        decimals::compare_greater_byte_array_decimals(a, b)
    }

    fn truncate_min_value(value: &[u8], length: usize) -> (usize, bool) {
        kinds::truncate_none_min(value)
    }

    fn truncate_max_value(value: &mut [u8], length: usize) -> (usize, bool) {
        kinds::truncate_none_max(value)
    }
}
