// How many numbers of a list are equal to one, and whether all are below a limit, sixteen of them at a time.

#![tactic(auto)]

mod counts;

pub use counts::{are_below, count_of};
