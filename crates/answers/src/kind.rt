use crate::given::said;
use anyhow::bail;
use kinds::Kind;
use std::alloc::{AllocError, Global};

// Calls a function at the kind of a number.
macro_rules! at_kind {
    ($kind:expr, $f:ident, $($given:expr),*) => {
        match $kind {
            1 => $f::<ints::Int32>($($given),*)?,
            2 => $f::<ints::UInt32>($($given),*)?,
            3 => $f::<ints::Int64>($($given),*)?,
            4 => $f::<ints::UInt64>($($given),*)?,
            5 => $f::<floats::Float>($($given),*)?,
            6 => $f::<floats::Double>($($given),*)?,
            7 => $f::<floats::Float16>($($given),*)?,
            8 => $f::<byte_kinds::ByteArray>($($given),*)?,
            9 => $f::<byte_kinds::FixedLenByteArray>($($given),*)?,
            10 => $f::<byte_kinds::Utf8String>($($given),*)?,
            11 => $f::<byte_kinds::DecimalByteArray>($($given),*)?,
            12 => $f::<byte_kinds::DecimalFixedLenByteArray>($($given),*)?,
            _ => bail!("no kind that is known here"),
        }
    };
}

pub(crate) use at_kind;

// Whether the first value is greater than the second, and whether the second is than the first.
pub fn greater(heap: Global, kind: u8, a: &[u8], b: &[u8]) -> anyhow::Result<String> {
    Ok(at_kind!(kind, greater_of, heap, a, b))
}

fn greater_of<K: Kind>(heap: Global, a: &[u8], b: &[u8]) -> Result<String, AllocError> {
    let above = u8::from(K::compare_greater(a, b));
    let below = u8::from(K::compare_greater(b, a));
    format!(in heap; "{above} {below}")
}

// Both bounds of a value at a length, and whether each was cut.
pub fn cut(heap: Global, kind: u8, length: usize, value: &mut [u8]) -> anyhow::Result<String> {
    Ok(at_kind!(kind, cut_of, heap, length, value))
}

fn cut_of<K: Kind>(heap: Global, length: usize, value: &mut [u8]) -> Result<String, AllocError> {
    let (end, lower_cut) = K::truncate_min_value(value, length);
    let lower = said(heap, &value[..end])?;
    let (end, upper_cut) = K::truncate_max_value(value, length);
    let upper = said(heap, &value[..end])?;
    let lower_cut = u8::from(lower_cut);
    let upper_cut = u8::from(upper_cut);
    format!(in heap; "{lower} {lower_cut} {upper} {upper_cut}")
}

// The bytes plus one, as a number of as many bytes: the upper bound of a value that goes on behind them.
pub fn raise(heap: Global, mut bytes: Vec<u8>) -> anyhow::Result<String> {
    let length = bytes.len();
    bytes.push(0)?;
    let (end, cut) = strings::truncate_max_value(bytes.as_mut_slice(), length);
    Ok(raised(heap, &bytes.as_slice()[..end], cut)?)
}

// The text with its last character raised that can be: likewise.
pub fn raise_text(heap: Global, mut bytes: Vec<u8>) -> anyhow::Result<String> {
    let length = bytes.len();
    bytes.push(0)?;
    let (end, cut) = texts::truncate_max_value(bytes.as_mut_slice(), length);
    Ok(raised(heap, &bytes.as_slice()[..end], cut)?)
}

fn raised(heap: Global, bound: &[u8], cut: bool) -> Result<String, AllocError> {
    if cut {
        said(heap, bound)
    } else {
        String::from_str(heap, "none")
    }
}
