ghost use Rattle.std.specs.Prelude.{◌≡◌};
ghost use Rattle.byte_kinds.specs.Kinds.{byte_array, fixed_len_byte_array, utf8_string, decimal_byte_array, decimal_fixed_len_byte_array};

use crate::byte_string::ByteString;
use crate::decimal::Decimal;
use crate::storage::{OnByteArray, OnFixed};
use crate::text::Text;
use crate::undecorated::Undecorated;
use kinds::Kind;

// BYTE_ARRAY: 0 to 128 bytes, compared unsigned and cut as bytes.
pub type ByteArray = ByteString<Undecorated, OnByteArray, 8>;

// FIXED_LEN_BYTE_ARRAY: as many bytes as its column says, compared unsigned and cut as bytes.
pub type FixedLenByteArray = ByteString<Undecorated, OnFixed, 9>;

// String: a BYTE_ARRAY whose text is cut between characters.
pub type Utf8String = ByteString<Text, OnByteArray, 10>;

// Decimal on BYTE_ARRAY: compared as a number, and never cut.
pub type DecimalByteArray = ByteString<Decimal, OnByteArray, 11>;

// Decimal on FIXED_LEN_BYTE_ARRAY: compared as a number, and never cut.
pub type DecimalFixedLenByteArray = ByteString<Decimal, OnFixed, 12>;

// Each name is the kind that the definitions give it: nothing is done.
fn are_the_kinds()
    ensures byte_array { ⟦<ByteArray as Kind>⟧.meaning ≡ byte_array }
    ensures fixed_len_byte_array { ⟦<FixedLenByteArray as Kind>⟧.meaning ≡ fixed_len_byte_array }
    ensures utf8_string { ⟦<Utf8String as Kind>⟧.meaning ≡ utf8_string }
    ensures decimal_byte_array { ⟦<DecimalByteArray as Kind>⟧.meaning ≡ decimal_byte_array }
    ensures decimal_fixed_len_byte_array { ⟦<DecimalFixedLenByteArray as Kind>⟧.meaning ≡ decimal_fixed_len_byte_array }
{}
