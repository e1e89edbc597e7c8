// The kinds of integers: INT32 and INT64, signed and unsigned.

#![tactic(auto)]

mod int_kind;
mod integer;
mod names;
mod signed;
mod unsigned;

pub use int_kind::IntKind;
pub use integer::Integer;
pub use names::{Int32, Int64, UInt32, UInt64};
