// What a chunk's calls mean: a page as levels and values, the ledger that calls and their answers
// feed, and the figures, entries and record that follow from it.

#![tactic(auto)]

mod order;
mod phase;

pub use order::{BoundaryOrder, boundary_order};
pub use phase::Phase;
