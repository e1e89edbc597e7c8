use crate::given;
use level_data::LevelDataRef;
use std::alloc::{AllocError, Global};

// How many levels there are, the first, the one at the offset, how many have a value, and the slice.
pub fn answer(
    heap: Global,
    total: usize,
    max: i16,
    offset: usize,
    len: usize,
    text: &str,
) -> anyhow::Result<String> {
    let list = given::level_list(heap, text)?;
    let levels = given::levels(text, list.as_slice())?;
    let count = levels.len();
    let first = level(heap, levels.first())?;
    let at = level(heap, levels.value_at(offset))?;
    let values = levels.value_count(total, max);
    let slice = said(heap, levels.slice(offset, len))?;
    Ok(format!(in heap; "{count} {first} {at} {values} {slice}")?)
}

fn level(heap: Global, level: Option<i16>) -> Result<String, AllocError> {
    match level {
        Some(level) => format!(in heap; "{level}"),
        None => String::from_str(heap, "none"),
    }
}

fn said(heap: Global, levels: Option<LevelDataRef>) -> Result<String, AllocError> {
    match levels {
        None => String::from_str(heap, "none"),
        Some(LevelDataRef::Absent) => String::from_str(heap, "-"),
        Some(LevelDataRef::Uniform { value, count }) => format!(in heap; "={value}*{count}"),
        Some(LevelDataRef::Materialized(list)) => {
            let mut said = String::from_str(heap, ":")?;
            for (i, level) in list.iter().enumerate() {
                let mark = if i == 0 { "" } else { "," };
                write!(said, "{mark}{level}")?;
            }
            Ok(said)
        }
    }
}
