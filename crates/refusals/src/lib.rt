// The refusals of the chunk layer, which hold those of the layers below whole, and what a batch answers.

#![tactic(auto)]

mod done;
mod fault;

pub use done::BatchDone;
pub use fault::ChunkFault;
