// What a coder of levels is: the trait that page code is generic over, and the bit width of a list.
// A coder means its bytes, how many they are, its number in the format and where it may stand.
// Reading is the exact inverse of coding: it answers levels only where the coder would write these bytes.

#![tactic(auto)]

mod coder;
mod width;

pub use coder::LevelCoder;
pub use width::bit_width;
