// Values of equal width as streams: the first byte of each value, then the second of each, and so on.
// The way back is the same with the two counts exchanged.

#![tactic(auto)]

mod streams;

pub use streams::scatter;
