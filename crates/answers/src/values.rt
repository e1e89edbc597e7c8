use crate::given::said;
use anyhow::bail;
use byte_kinds::{ByteString, Content, Decimal, OnByteArray, OnFixed, Storage, Text, Undecorated};
use figures::{get_min_max, update_max, update_min};
use floats::{Bits, FloatKind, Floating};
use ints::{IntKind, Integer};
use kinds::{Kind, ValueOf};
use std::alloc::{AllocError, Global};

// Smallest, largest and NaN count of a list.
pub fn figures(heap: Global, kind: u8, values: &[Vec<u8>]) -> anyhow::Result<String> {
    let mut list = Vec::new(heap);
    for value in values {
        list.push(value.as_slice())?;
    }
    let list = list.as_slice();
    Ok(match kind {
        1 => integers::<i32>(heap, list)?,
        2 => integers::<u32>(heap, list)?,
        3 => integers::<i64>(heap, list)?,
        4 => integers::<u64>(heap, list)?,
        5 => patterns::<u32>(heap, list)?,
        6 => patterns::<u64>(heap, list)?,
        7 => patterns::<u16>(heap, list)?,
        8 => found::<ByteString<Undecorated, OnByteArray, 8>, &[u8]>(heap, list)?,
        9 => found::<ByteString<Undecorated, OnFixed, 9>, &[u8]>(heap, list)?,
        10 => found::<ByteString<Text, OnByteArray, 10>, &[u8]>(heap, list)?,
        11 => found::<ByteString<Decimal, OnByteArray, 11>, &[u8]>(heap, list)?,
        12 => found::<ByteString<Decimal, OnFixed, 12>, &[u8]>(heap, list)?,
        _ => bail!("no kind that is known here"),
    })
}

fn integers<T: Integer + ValueOf<IntKind<T>>>(
    heap: Global,
    list: &[&[u8]],
) -> Result<String, AllocError> {
    let values: Vec<T> = list.iter().map(|value| T::read(value)).collect(heap)?;
    found::<IntKind<T>, T>(heap, values.as_slice())
}

fn patterns<B: Floating>(heap: Global, list: &[&[u8]]) -> Result<String, AllocError> {
    let values: Vec<Bits<B>> = list.iter().map(|value| Bits(B::read(value))).collect(heap)?;
    found::<FloatKind<B>, Bits<B>>(heap, values.as_slice())
}

fn found<K: Kind, V: ValueOf<K> + Copy>(heap: Global, values: &[V]) -> Result<String, AllocError> {
    let Some(found) = get_min_max::<K, V>(values) else {
        return String::from_str(heap, "none");
    };
    let min = said(heap, found.min.as_bytes(&mut [0; 8]))?;
    let max = said(heap, found.max.as_bytes(&mut [0; 8]))?;
    let nans = found.nan_count;
    format!(in heap; "{min} {max} {nans}")
}

// Smallest and largest after a value came to an old one, or to none.
pub fn update(heap: Global, kind: u8, old: Option<&[u8]>, value: &[u8]) -> anyhow::Result<String> {
    Ok(match kind {
        1 => integer_into::<i32>(heap, old, value)?,
        2 => integer_into::<u32>(heap, old, value)?,
        3 => integer_into::<i64>(heap, old, value)?,
        4 => integer_into::<u64>(heap, old, value)?,
        5 => pattern_into::<u32>(heap, old, value)?,
        6 => pattern_into::<u64>(heap, old, value)?,
        7 => pattern_into::<u16>(heap, old, value)?,
        8 => into::<ByteString<Undecorated, OnByteArray, 8>, &[u8]>(heap, old, value)?,
        9 => into::<ByteString<Undecorated, OnFixed, 9>, &[u8]>(heap, old, value)?,
        10 => into::<ByteString<Text, OnByteArray, 10>, &[u8]>(heap, old, value)?,
        11 => into::<ByteString<Decimal, OnByteArray, 11>, &[u8]>(heap, old, value)?,
        12 => into::<ByteString<Decimal, OnFixed, 12>, &[u8]>(heap, old, value)?,
        _ => bail!("no kind that is known here"),
    })
}

fn integer_into<T: Integer + ValueOf<IntKind<T>>>(
    heap: Global,
    old: Option<&[u8]>,
    value: &[u8],
) -> Result<String, AllocError> {
    into::<IntKind<T>, T>(heap, old.map(|old| T::read(old)), T::read(value))
}

fn pattern_into<B: Floating>(
    heap: Global,
    old: Option<&[u8]>,
    value: &[u8],
) -> Result<String, AllocError> {
    into::<FloatKind<B>, Bits<B>>(
        heap,
        old.map(|old| Bits(B::read(old))),
        Bits(B::read(value)),
    )
}

fn into<K: Kind, V: ValueOf<K> + Copy>(
    heap: Global,
    old: Option<V>,
    value: V,
) -> Result<String, AllocError> {
    let mut min = old;
    let mut max = old;
    update_min::<K, V>(&value, &mut min);
    update_max::<K, V>(&value, &mut max);
    let min = figure::<K, V>(heap, min)?;
    let max = figure::<K, V>(heap, max)?;
    format!(in heap; "{min} {max}")
}

fn figure<K: Kind, V: ValueOf<K> + Copy>(
    heap: Global,
    figure: Option<V>,
) -> Result<String, AllocError> {
    match figure {
        Some(value) => said(heap, value.as_bytes(&mut [0; 8])),
        None => String::from_str(heap, "none"),
    }
}
