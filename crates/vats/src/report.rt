use crate::hold_chunk::Closed;
use crate::vat::{Rebuilt, Recorded, Vat};
use buffers::Buffer;
use entries::{Entry, Marks};
use floats::{Bits, DoubleBits};
use ledger::BoundaryOrder;
use page_log::Record;
use release::{VatRecord, admits_dip, is_dip, judge};
use std::alloc::{AllocError, Global};
use std::fmt;
use std::num::f64_from_bits_with_nan;
use words::Word;

// The head of the table of vats.
pub fn head(text: &mut String, limit: DoubleBits) -> Result<(), AllocError> {
    let at = Degrees(Some(limit));
    writeln!(text, "Hold temperatures in °C, release at {at} or above\n")?;
    writeln!(
        text,
        "{:<10} {:>6} {:>8} {:>5} {:>9} {:>9}  {}",
        "vat", "rows", "missing", "NaN", "smallest", "largest", "release"
    )
}

// A vat's line in it.
pub fn vat_line(
    text: &mut String,
    name: &str,
    vat: &VatRecord,
    limit: DoubleBits,
) -> Result<(), AllocError> {
    let rows = vat.rows;
    let missing = vat.missing;
    let nans = vat.nans;
    let smallest = Degrees::kept(vat.min);
    let largest = Degrees::kept(vat.max);
    let release = judge(vat.min, limit);
    writeln!(
        text,
        "{name:<10} {rows:>6} {missing:>8} {nans:>5} {smallest:>9} {largest:>9}  {release}"
    )
}

// A chunk of a vat: the index of its pages, the dips in those that a reader opens, and its record beside that of the
// chunk rebuilt from its pages.
pub fn chunk(
    heap: Global,
    text: &mut String,
    vat: Vat,
    first: u64,
    chunk: &Recorded,
    closed: &Closed,
    rebuilt: &Rebuilt,
) -> anyhow::Result<()> {
    let last = first.saturating_add(closed.record.rows).saturating_sub(1);
    let name = vat.name;
    writeln!(text, "\n{name}, column chunk of rows {first} to {last}\n")?;
    index(text, vat.limit, closed.index.as_slice())?;
    dips(heap, text, vat.limit, first, chunk, closed.index.as_slice())?;
    writeln!(
        text,
        "\n{:<8} {:>6} {:>7} {:>6} {:>5} {:>9} {:>9} {:>6} {:>6}  {:<10}  {}",
        "record",
        "rows",
        "levels",
        "nulls",
        "NaN",
        "smallest",
        "largest",
        "pages",
        "bytes",
        "order",
        "agrees"
    )?;
    let pages = closed.index.len();
    record_line(text, "written", &closed.record, pages, "-")?;
    let agrees = if rebuilt.agrees { "yes" } else { "no" };
    record_line(text, "rebuilt", &rebuilt.record, rebuilt.pages, agrees)?;
    Ok(())
}

// The index of a chunk's pages, and which of them a reader opens who looks for dips.
fn index(text: &mut String, limit: DoubleBits, index: &[Entry]) -> anyhow::Result<()> {
    let at = Degrees(Some(limit));
    writeln!(
        text,
        "{:>4} {:>10} {:>5} {:>6} {:>5} {:>7} {:>5} {:>9} {:>9}  below {at}",
        "page", "first row", "rows", "nulls", "NaN", "offset", "size", "smallest", "largest"
    )?;
    for (k, entry) in index.iter().enumerate() {
        if let Some(marks) = &entry.marks {
            entry_line(text, limit, k, entry, marks)?;
        }
    }
    Ok(())
}

// A page has as many rows as levels, since no row has two readings.
fn entry_line(
    text: &mut String,
    limit: DoubleBits,
    k: usize,
    entry: &Entry,
    marks: &Marks,
) -> Result<(), AllocError> {
    let first = entry.first_row;
    let rows = entry.levels;
    let nulls = marks.null_count;
    let nans = marks.nan_count.unwrap_or(0);
    let offset = entry.offset;
    let size = entry.size;
    let smallest = bound(marks, marks.min.bytes);
    let largest = bound(marks, marks.max.bytes);
    let read = if admits_dip(marks, limit) {
        "opened"
    } else {
        "passed over"
    };
    writeln!(
        text,
        "{k:>4} {first:>10} {rows:>5} {nulls:>6} {nans:>5} {offset:>7} {size:>5} {smallest:>9} {largest:>9}  {read}"
    )
}

// The dips in the pages that a reader opens.
fn dips(
    heap: Global,
    text: &mut String,
    limit: DoubleBits,
    first: u64,
    chunk: &Recorded,
    index: &[Entry],
) -> anyhow::Result<()> {
    for (k, entry) in index.iter().enumerate() {
        if is_opened(entry, limit) {
            let holds = chunk.read(heap, k)?;
            dip_lines(
                text,
                limit,
                first.saturating_add(entry.first_row),
                holds.as_slice(),
            )?;
        }
    }
    Ok(())
}

fn is_opened(entry: &Entry, limit: DoubleBits) -> bool {
    match &entry.marks {
        None => false,
        Some(marks) => admits_dip(marks, limit),
    }
}

fn dip_lines(
    text: &mut String,
    limit: DoubleBits,
    first: u64,
    holds: &[Option<DoubleBits>],
) -> Result<(), AllocError> {
    let mut row = first;
    for hold in holds {
        if hold.is_some_and(|hold| is_dip(hold, limit)) {
            let at = Degrees(*hold);
            writeln!(text, "     row {row}: {at}")?;
        }
        row = row.saturating_add(1);
    }
    Ok(())
}

fn record_line(
    text: &mut String,
    what: &str,
    record: &Record,
    pages: usize,
    agrees: &str,
) -> Result<(), AllocError> {
    let rows = record.rows;
    let levels = record.levels;
    let nulls = record.nulls;
    let nans = record.nans;
    let smallest = Degrees::kept(record.min);
    let largest = Degrees::kept(record.max);
    let bytes = record.bytes;
    let order = record.order.map_or("-", |order| order_word(order.boundary));
    writeln!(
        text,
        "{what:<8} {rows:>6} {levels:>7} {nulls:>6} {nans:>5} {smallest:>9} {largest:>9} {pages:>6} {bytes:>6}  {order:<10}  {agrees}"
    )
}

fn order_word(order: BoundaryOrder) -> &'static str {
    match order {
        BoundaryOrder::Unordered => "unordered",
        BoundaryOrder::Ascending => "ascending",
        BoundaryOrder::Descending => "descending",
    }
}

// A page's bound, which one without values has not.
fn bound(marks: &Marks, bytes: Buffer<128>) -> Degrees {
    Degrees::kept(if marks.null_page { None } else { Some(bytes) })
}

// A temperature as the tables show it.
#[derive(Clone, Copy)]
struct Degrees(Option<DoubleBits>);

impl Degrees {
    // A value that a record or an index keeps.
    fn kept(value: Option<Buffer<128>>) -> Degrees {
        Degrees(value.map(|value| Bits(u64::read(value.as_slice()))))
    }
}

impl fmt::Display for Degrees {
    fn fmt<W: fmt::Write>(&self, f: &mut fmt::Formatter<W>) -> fmt::Result {
        match self.0 {
            None => f.pad("-"),
            Some(hold) => fmt::Debug::fmt(&f64_from_bits_with_nan(hold.0), f),
        }
    }
}
