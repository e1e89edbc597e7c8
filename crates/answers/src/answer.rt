use crate::{given, kind, level_cases, values};
use anyhow::bail;
use std::alloc::Global;

// The answer to a line.
pub fn answer(heap: Global, line: &str) -> anyhow::Result<String> {
    if line.starts_with('#') {
        return Ok(String::from_str(heap, line)?);
    }
    let words: Vec<&str> = line.split(' ').collect(heap)?;
    match words.as_slice() {
        ["greater", kind, a, b] => {
            let a = given::bytes(heap, a)?;
            let b = given::bytes(heap, b)?;
            kind::greater(heap, given::kind(kind)?, a.as_slice(), b.as_slice())
        }
        ["cut", kind, length, value] => {
            let mut value = given::bytes(heap, value)?;
            kind::cut(
                heap,
                given::kind(kind)?,
                length.parse::<usize>()?,
                value.as_mut_slice(),
            )
        }
        ["figures", kind, list @ ..] => {
            let list = given::values(heap, list)?;
            values::figures(heap, given::kind(kind)?, list.as_slice())
        }
        ["update", kind, "none", value] => {
            let value = given::bytes(heap, value)?;
            values::update(heap, given::kind(kind)?, None, value.as_slice())
        }
        ["update", kind, old, value] => {
            let old = given::bytes(heap, old)?;
            let value = given::bytes(heap, value)?;
            values::update(
                heap,
                given::kind(kind)?,
                Some(old.as_slice()),
                value.as_slice(),
            )
        }
        ["raise", value] => kind::raise(heap, given::bytes(heap, value)?),
        ["raise-text", value] => kind::raise_text(heap, given::bytes(heap, value)?),
        ["levels", total, max, offset, len, list] => level_cases::answer(
            heap,
            total.parse::<usize>()?,
            max.parse::<i16>()?,
            offset.parse::<usize>()?,
            len.parse::<usize>()?,
            list,
        ),
        _ => bail!("no case that is known here"),
    }
}
