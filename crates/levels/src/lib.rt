// The two coders of levels: `Packed`, the format's RLE with one bit-packed run, and `Legacy`, its BIT_PACKED.
// Both write a list as its header, if it has one, and its levels' bits; both read only what they write.

#![tactic(auto)]

mod header;
mod legacy;
mod list;
mod packed;

pub use legacy::Legacy;
pub use packed::Packed;
