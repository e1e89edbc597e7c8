// The order of pages: whether their figures rise or fall from each page with values to the next.

#![tactic(auto)]

mod tracker;

pub use tracker::{Bounds, Tracker};
