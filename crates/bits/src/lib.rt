// Levels of a few bits each, packed into bytes and read from them again, in either order of bits.
// `pack` writes what the format's text gives, filled with 0; `unpack` reads exactly what `pack` writes.
// Both refuse what does not fit, and then change nothing.

#![tactic(auto)]

mod order;
mod packing;
mod word;

pub use order::BitOrder;
pub use packing::{pack, unpack};
