// The kinds of byte strings: undecorated bytes of either physical type, String, and Decimal on either.
// Each is a content, which has the order and the cuts, on a physical type; its values come in as slices.

#![tactic(auto)]

mod byte_string;
mod content;
mod decimal;
mod names;
mod storage;
mod text;
mod undecorated;

pub use byte_string::ByteString;
pub use content::Content;
pub use decimal::Decimal;
pub use names::{
    ByteArray, DecimalByteArray, DecimalFixedLenByteArray, FixedLenByteArray, Utf8String,
};
pub use storage::{OnByteArray, OnFixed, Storage};
pub use text::Text;
pub use undecorated::Undecorated;
