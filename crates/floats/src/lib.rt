// The kinds of floating-point values, by bit pattern: FLOAT, DOUBLE and Float16.

#![tactic(auto)]

mod bits;
mod float_kind;
mod floating;
mod names;

pub use bits::{Bits, DoubleBits, Float16Bits, FloatBits};
pub use float_kind::FloatKind;
pub use floating::Floating;
pub use names::{Double, Float, Float16};
