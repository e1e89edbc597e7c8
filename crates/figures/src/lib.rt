// Figures of a list of values: smallest, largest and NaN count, as a page and a chunk keep them.

#![tactic(auto)]

mod get;
mod min_max;
mod ranked;
mod update;

pub use get::get_min_max;
pub use min_max::MinMax;
pub use update::{update_max, update_min};
