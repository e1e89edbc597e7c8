// A column chunk: batches of levels and values go into an open page, full pages to the chunk's sink, and an
// index and a record are kept of them.

#![tactic(auto)]

mod calls;
mod chunk;
mod opening;
mod reads;
mod state;
mod writes;

pub use chunk::ColumnChunk;
