// Text in bytes: whether a string is UTF-8, and the bounds that a page index may hold in place of a longer
// string. Text is cut between characters, so that its bounds are text too; any other string is cut as bytes.

#![tactic(auto)]

mod cut;
mod increment;
mod leads;
mod lengths;
mod valid;

pub use cut::{truncate_max_value, truncate_min_value};
pub use leads::lead_length;
pub use valid::is_utf8;
