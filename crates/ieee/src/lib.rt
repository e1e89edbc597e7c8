// IEEE 754 data by their bit patterns: the total order and NaN, over the format.

#![tactic(auto)]

mod nan;
mod pattern;
mod total;

pub use nan::is_nan;
pub use pattern::Pattern;
pub use total::{rank, total_greater};
