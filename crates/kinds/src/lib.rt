// Kinds of values: what every later layer knows of a value. A kind shows its meaning and laws over
// byte strings, so that bounds, which may be no values of the kind, are compared by the same order;
// typed values come in by `ValueOf`.

#![tactic(auto)]

mod cuts;
mod descriptor;
mod kind;
mod physical;
mod plain;
mod value;

pub use cuts::{truncate_none_max, truncate_none_min};
pub use descriptor::Descriptor;
pub use kind::{Kind, admits_width};
pub use physical::PhysicalType;
pub use plain::{four_bytes, plain_size, put_plain, read_plain};
pub use value::ValueOf;
