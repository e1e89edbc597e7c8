// Lists of bytes in fixed memory: what a chunk keeps of its open page and of its figures.

#![tactic(auto)]

mod buffer;

pub use buffer::Buffer;
