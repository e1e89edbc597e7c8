// Byte strings: their unsigned order, and the bounds that a page index may hold in place of a longer
// value. Below, the first bytes; above, these plus one as a big-endian number, where that fits.

#![tactic(auto)]

mod cut;
mod increment;
mod order;

pub use cut::{truncate_max_value, truncate_min_value};
pub use order::compare_greater;
