// Lent areas, and the places in them where pages lie.
// What every sink over an area does with bytes: test a size, lay bytes down, read a place.
// Total: what does not fit changes nothing, and a place past the end has fewer bytes.

#![tactic(auto)]

mod area;
mod place;
mod reads;

pub use area::{allowed_area, check_area, fits, lay};
pub use place::Place;
pub use reads::{copy_at, len_at, offset_at};
