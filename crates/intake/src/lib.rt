// Whether a batch may come into a chunk: the refusals that it meets by itself, in their order and with their
// positions, and what it needs where it meets none. Nothing is written.

#![tactic(auto)]

mod admission;
mod batch;
mod intake;
mod levels;
mod values;

pub use admission::admit;
pub use batch::Batch;
pub use intake::Intake;
