// What a coder of page bodies is: the trait that page code is generic over.
// A body is the plain bytes of values of equal width or, where the coder admits BYTE_ARRAY, joined plain bytes.
// Coding and reading are each other's exact inverse, byte for byte.

#![tactic(auto)]

mod coder;

pub use coder::{BodyCoder, is_whole};
