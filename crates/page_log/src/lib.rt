// What a chunk keeps of the pages that it wrote: their entries, their sums, and both orders of them.

#![tactic(auto)]

mod log;
mod record;

pub use log::PageLog;
pub use record::{Order, Record};
