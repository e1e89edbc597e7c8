ghost use Rattle.std.specs.Prelude.{◌≡◌};
ghost use Rattle.ints.specs.Ints.{int32, uint32, int64, uint64};

use crate::int_kind::IntKind;
use kinds::Kind;

// INT32, signed.
pub type Int32 = IntKind<i32>;

// INT32, unsigned.
pub type UInt32 = IntKind<u32>;

// INT64, signed.
pub type Int64 = IntKind<i64>;

// INT64, unsigned.
pub type UInt64 = IntKind<u64>;

// Each name is the kind that the definitions give it: nothing is done.
fn are_the_kinds()
    ensures int32 { ⟦<Int32 as Kind>⟧.meaning ≡ int32 }
    ensures uint32 { ⟦<UInt32 as Kind>⟧.meaning ≡ uint32 }
    ensures int64 { ⟦<Int64 as Kind>⟧.meaning ≡ int64 }
    ensures uint64 { ⟦<UInt64 as Kind>⟧.meaning ≡ uint64 }
{}
