// Words of a value: the little-endian number that its first bytes give, and the bytes of such a number
// in lent room.

#![tactic(auto)]

mod room;
mod word;

pub use room::lend;
pub use word::Word;
