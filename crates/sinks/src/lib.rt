// What a page sink means: its pages in order, the offset of each, and the lengths it takes.
// Two traits, the reading half and above it the writing half, and the layer's refusals.
// Nothing here implements them, so a further sink leaves this crate alone.

#![tactic(auto)]

mod fault;
mod said;
mod sink;
mod store;

pub use fault::{Layer, SinkFault};
pub use said::{Fault, Said};
pub use sink::PageSink;
pub use store::PageStore;
