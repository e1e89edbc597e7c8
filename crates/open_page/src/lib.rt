// The open page of a chunk: the levels and values that it took since the last page was cut, what is counted of them,
// and its bytes once it is cut. A page is what a batch adds to, and nothing is taken off it.

#![tactic(auto)]

mod levels;
mod page;
mod values;

pub use page::OpenPage;
