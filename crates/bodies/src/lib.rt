// The two coders of page bodies: `Plain`, which changes nothing, and `Split`, the format's BYTE_STREAM_SPLIT.

#![tactic(auto)]

mod plain;
mod split;

pub use plain::Plain;
pub use split::Split;
