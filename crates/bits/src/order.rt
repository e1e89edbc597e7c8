// Which bit of a number comes first in a row of bits, and fills the first place of a byte.
#[derive(Clone, Copy, Debug, PartialEq, Eq)]
pub enum BitOrder {
    // The bit of 1, as in the RLE encoding.
    LeastFirst,
    // The bit of the highest power, as in the deprecated BIT_PACKED.
    MostFirst,
}
