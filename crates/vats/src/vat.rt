use crate::hold_chunk::{HoldChunk, pages_of, refused};
use crate::report;
use anyhow::Context;
use areas::Place;
use bodies::{Plain, Split};
use floats::DoubleBits;
use levels::Packed;
use packed::PackedSink;
use page_log::Record;
use rebuild::{Rebuilding, Unbuilt, rebuild};
use release::VatRecord;
use runs::{Call, Played, has_same_figures};
use sinks::PageStore;
use slotted::SlottedSink;
use std::alloc::Global;
use std::ops::Range;

// Readings of a batch, and of a page, which a batch never goes beyond.
const BATCH: usize = 8;

const PAGE: usize = 16;

// Readings of a page of the rebuilt chunk.
const REBUILT_PAGE: usize = 64;

// Bytes of a sink's area.
const AREA: usize = 16384;

pub type Recorded<'a> = HoldChunk<Packed, Plain, PackedSink<'a>>;

// The readings of a vat, which are written to one chunk after the other.
#[derive(Clone, Copy)]
pub struct Vat<'a> {
    pub name: &'a str,
    pub holds: &'a [Option<DoubleBits>],
    pub limit: DoubleBits,
}

impl<'a> Vat<'a> {
    // Writes the chunks, and reports each of them and what their records say together.
    pub fn write(self, heap: Global, vats: &mut String, chunks: &mut String) -> anyhow::Result<()> {
        let mut area = vec![in heap; 0u8; AREA]?;
        let mut table = vec![in heap; Place { offset: 0, len: 0 }; 64]?;
        let mut vat = VatRecord::new();
        let mut chunk = open(area.as_mut_slice(), table.as_mut_slice())?;
        let mut begun = 0;
        let mut row = 0;
        for batch in self.holds.chunks(BATCH) {
            if !chunk.has_room() {
                self.finish(heap, &mut chunk, begun..row, &mut vat, chunks)
                    .context(format_args!("vat {}, row {row}", self.name))?;
                begun = row;
                let (area, table) = chunk.into_sink().into_parts();
                chunk = open(area, table)?;
            }
            chunk
                .add(heap, batch)
                .context(format_args!("vat {}, row {row}", self.name))?;
            row = batch.len().saturating_add(row);
        }
        self.finish(heap, &mut chunk, begun..row, &mut vat, chunks)
            .context(format_args!("vat {}, row {row}", self.name))?;
        report::vat_line(vats, self.name, &vat, self.limit)?;
        Ok(())
    }

    // Closes a chunk, which has the readings of these rows, takes in its record, and reports it.
    fn finish(
        self,
        heap: Global,
        chunk: &mut Recorded,
        rows: Range<usize>,
        vat: &mut VatRecord,
        text: &mut String,
    ) -> anyhow::Result<()> {
        let first = vat.rows;
        let closed = chunk.close(heap)?;
        vat.add(&closed.record);
        let holds = self.holds.get(rows).unwrap_or(&[]);
        let rebuilt = rebuild_from_pages(heap, holds, chunk, &closed.record)?;
        report::chunk(heap, text, self, first, chunk, &closed, &rebuilt)?;
        Ok(())
    }
}

fn open<'a>(area: &'a mut [u8], table: &'a mut [Place]) -> anyhow::Result<Recorded<'a>> {
    let sink = PackedSink::new(area, table);
    sink.check().map_err(refused)?;
    HoldChunk::open(pages_of(1, PAGE), sink)
}

// What a chunk rebuilt from another's pages says: its record, how many pages it has, and whether its record agrees with the other's.
#[derive(Drop)]
pub struct Rebuilt {
    pub record: Record,
    pub pages: usize,
    pub agrees: bool,
}

// Reads the pages of a chunk back and writes them to another, with larger pages, split bodies and another sink. One call writes
// what was read, and beside it the readings once more, and compares the records of both; that of the chunk itself is compared too.
pub fn rebuild_from_pages(
    heap: Global,
    holds: &[Option<DoubleBits>],
    chunk: &Recorded,
    record: &Record,
) -> anyhow::Result<Rebuilt> {
    let mut read = Vec::new(heap);
    for k in 0..chunk.pages() {
        read.extend_from_slice(chunk.read(heap, k)?.as_slice())?;
    }
    let mut area = vec![in heap; 0u8; AREA]?;
    let mut table = vec![in heap; Place { offset: 0, len: 0 }; 64]?;
    let mut other_area = vec![in heap; 0u8; AREA]?;
    let sink = PackedSink::new(area.as_mut_slice(), table.as_mut_slice());
    sink.check().map_err(refused)?;
    let other_sink = SlottedSink::new(other_area.as_mut_slice());
    other_sink.check().map_err(refused)?;
    let unplayed = Played {
        call: Call::Close,
        answer: None,
    };
    let mut calls = vec![in heap; unplayed; holds.len().saturating_add(1)]?;
    let mut other_calls = vec![in heap; unplayed; read.len().saturating_add(1)]?;
    let Rebuilding {
        written,
        rebuilt,
        agrees,
    } = rebuild::<Packed, Plain, PackedSink, Packed, Split, SlottedSink>(
        holds,
        pages_of(1, PAGE),
        sink,
        calls.as_mut_slice(),
        read.as_slice(),
        pages_of(2, REBUILT_PAGE),
        other_sink,
        other_calls.as_mut_slice(),
    )
    .map_err(unbuilt)?;
    let again = written.record.map_err(refused)?;
    Ok(Rebuilt {
        record: rebuilt.record.map_err(refused)?,
        pages: rebuilt.entries.len(),
        agrees: agrees && has_same_figures(record, &again),
    })
}

fn unbuilt(why: Unbuilt) -> anyhow::Error {
    match why {
        Unbuilt::Places => anyhow::Error::from(why),
        Unbuilt::Refused(fault) => refused(fault),
    }
}
