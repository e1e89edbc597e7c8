use anyhow::Context;
use level_data::LevelDataRef;
use std::alloc::{AllocError, Global};

// A kind's number, whatever its decoration.
pub fn kind(text: &str) -> anyhow::Result<u8> {
    let number = text.strip_suffix('c').unwrap_or(text);
    number.parse::<u8>().context("a kind")
}

// Bytes in hexadecimal, where - is no bytes.
pub fn bytes(heap: Global, text: &str) -> anyhow::Result<Vec<u8>> {
    if text == "-" {
        return Ok(Vec::new(heap));
    }
    hex::decode(heap, text).context("bytes in hexadecimal")
}

// The values of a list.
pub fn values(heap: Global, words: &[&str]) -> anyhow::Result<Vec<Vec<u8>>> {
    let mut values = Vec::new(heap);
    for word in words {
        values.push(bytes(heap, word)?)?;
    }
    Ok(values)
}

// Values parted by commas; none are none.
pub fn parted(heap: Global, text: &str) -> anyhow::Result<Vec<Vec<u8>>> {
    let mut values = Vec::new(heap);
    if text != "none" {
        for word in text.split(',') {
            values.push(bytes(heap, word)?)?;
        }
    }
    Ok(values)
}

// The levels of a list such as :1,0 and none of any other.
pub fn level_list(heap: Global, text: &str) -> anyhow::Result<Vec<i16>> {
    let mut levels = Vec::new(heap);
    for level in text.strip_prefix(':').unwrap_or("").split(',') {
        if !level.is_empty() {
            levels.push(level.parse::<i16>().context("a level")?)?;
        }
    }
    Ok(levels)
}

// Absent levels as -, a list as :1,0 and one value so many times as =1*3.
pub fn levels<'a>(text: &str, list: &'a [i16]) -> anyhow::Result<LevelDataRef<'a>> {
    if text == "-" {
        return Ok(LevelDataRef::Absent);
    }
    let Some(uniform) = text.strip_prefix('=') else {
        return Ok(LevelDataRef::Materialized(list));
    };
    let (value, count) = uniform.split_once('*').context("a value and a count")?;
    Ok(LevelDataRef::Uniform {
        value: value.parse::<i16>()?,
        count: count.parse::<usize>()?,
    })
}

// Bytes as answers have them.
pub fn said(heap: Global, bytes: &[u8]) -> Result<String, AllocError> {
    if bytes.is_empty() {
        return String::from_str(heap, "-");
    }
    hex::encode(heap, bytes)
}
