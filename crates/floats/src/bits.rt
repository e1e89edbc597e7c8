use crate::float_kind::FloatKind;
use crate::floating::Floating;
use kinds::ValueOf;

// A floating-point value by its bit pattern: NaN has many.
#[derive(Clone, Copy, PartialEq, Eq, Debug)]
pub struct Bits<B>(pub B);

// A FLOAT value.
pub type FloatBits = Bits<u32>;

// A DOUBLE value.
pub type DoubleBits = Bits<u64>;

// A Float16 value.
pub type Float16Bits = Bits<u16>;

impl<B: Floating> ValueOf<FloatKind<B>> for Bits<B> {
    ghost bytes = { λ v. B.bytes v.0 };

    fn as_bytes<'a>(&'a self, room: &'a mut [u8; 8]) -> &'a [u8] {
        self.0.lend(room)
    }
}
