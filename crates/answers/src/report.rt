use crate::given::said;
use buffers::Buffer;
use entries::{Entry, Marks};
use metrics::LevelHistogram;
use page_log::{Order, Record};
use std::alloc::{AllocError, Global};

// A page's part of a report.
pub fn entry(heap: Global, entry: Entry, page: &[u8]) -> Result<String, AllocError> {
    let offset = entry.offset;
    let size = entry.size;
    let first = entry.first_row;
    let page = said(heap, page)?;
    match entry.marks {
        None => format!(in heap; "page {offset} {size} {first} {page}"),
        Some(marks) => {
            let marks = marked(heap, marks)?;
            format!(in heap; "page {offset} {size} {first} {page} {marks}")
        }
    }
}

fn marked(heap: Global, marks: Marks) -> Result<String, AllocError> {
    let null = u8::from(marks.null_page);
    let lower = said(heap, marks.min.bytes.as_slice())?;
    let upper = said(heap, marks.max.bytes.as_slice())?;
    let nulls = marks.null_count;
    let nans = match marks.nan_count {
        Some(nans) => format!(in heap; "{nans}")?,
        None => String::from_str(heap, "-")?,
    };
    let reps = counts(heap, marks.repetition_level_histogram)?;
    let defs = counts(heap, marks.definition_level_histogram)?;
    format!(in heap; "{null} {lower} {upper} {nulls} {nans} {reps} {defs}")
}

// The record's part of a report.
pub fn record(heap: Global, record: Record) -> Result<String, AllocError> {
    let rows = record.rows;
    let levels = record.levels;
    let nulls = record.nulls;
    let nans = record.nans;
    let reps = counts(heap, record.repetition_level_histogram)?;
    let defs = counts(heap, record.definition_level_histogram)?;
    let min = figure(heap, record.min)?;
    let max = figure(heap, record.max)?;
    let bytes = record.bytes;
    let order = ordered(heap, record.order)?;
    format!(in heap;
        "record {rows} {levels} {nulls} {nans} {reps} {defs} {min} {max} {bytes}{order}"
    )
}

fn ordered(heap: Global, order: Option<Order>) -> Result<String, AllocError> {
    let Some(order) = order else {
        return Ok(String::new(heap));
    };
    let ascending = u8::from(order.ascending);
    let descending = u8::from(order.descending);
    let boundary = order.boundary.number();
    format!(in heap; " {ascending} {descending} {boundary}")
}

fn figure(heap: Global, figure: Option<Buffer<128>>) -> Result<String, AllocError> {
    match figure {
        Some(value) => said(heap, value.as_slice()),
        None => String::from_str(heap, "none"),
    }
}

// How often each level was met, from 0 to the maximum.
fn counts(heap: Global, histogram: Option<LevelHistogram>) -> Result<String, AllocError> {
    let Some(histogram) = histogram else {
        return String::from_str(heap, "-");
    };
    let mut said = String::new(heap);
    for (level, count) in histogram.as_slice().iter().enumerate() {
        let mark = if level == 0 { "" } else { "," };
        write!(said, "{mark}{count}")?;
    }
    Ok(said)
}
