// What is counted of a page while it is open, and of a chunk from its pages: levels, rows, nulls, NaN
// and how often each level stands.

#![tactic(auto)]

mod column;
mod histogram;
mod page;

pub use column::ColumnMetrics;
pub use histogram::LevelHistogram;
pub use page::PageMetrics;
