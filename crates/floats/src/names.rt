ghost use Rattle.std.specs.Prelude.{◌≡◌};
ghost use Rattle.floats.specs.Floats.{float, double, float16};

use crate::float_kind::FloatKind;
use kinds::Kind;

// FLOAT: binary32 patterns.
pub type Float = FloatKind<u32>;

// DOUBLE: binary64 patterns.
pub type Double = FloatKind<u64>;

// Float16: binary16 patterns in two bytes of FIXED_LEN_BYTE_ARRAY.
pub type Float16 = FloatKind<u16>;

// Each name is the kind that the definitions give it: nothing is done.
fn are_the_kinds()
    ensures float { ⟦<Float as Kind>⟧.meaning ≡ float }
    ensures double { ⟦<Double as Kind>⟧.meaning ≡ double }
    ensures float16 { ⟦<Float16 as Kind>⟧.meaning ≡ float16 }
{}
