use anyhow::{Context, anyhow};
use body_coder::BodyCoder;
use chunk::ColumnChunk;
use columns::{Mode, Settings, check, layout};
use entries::Entry;
use floats::{Bits, Double, DoubleBits};
use intake::Batch;
use level_coder::LevelCoder;
use level_data::LevelDataRef;
use page_log::Record;
use pages::page_size;
use rebuild::COLUMN;
use sinks::{Fault, PageSink, PageStore};
use std::alloc::Global;
use std::fmt::Display;
use words::Word;

// How a chunk is written with pages of so many rows.
pub fn pages_of(version: u8, rows: usize) -> Settings {
    Settings {
        version,
        row_limit: rows,
        size_limit: 4096,
        mode: Mode::Page,
        cut_length: None,
    }
}

// A refusal, by its number and its words.
pub fn refused<F: Fault + Display>(fault: F) -> anyhow::Error {
    let number = fault.number();
    anyhow!("refusal {number}: {fault}")
}

// What a closed chunk says of itself.
#[derive(Drop)]
pub struct Closed {
    pub index: Vec<Entry>,
    pub record: Record,
}

// A column chunk of hold temperatures over a sink that was empty.
#[derive(Drop)]
pub struct HoldChunk<L: LevelCoder, B: BodyCoder, S: PageSink> {
    chunk: ColumnChunk<Double, L, B, S>,
    settings: Settings,
    // whether the open page has rows
    is_begun: bool,
}

impl<L: LevelCoder, B: BodyCoder, S: PageSink + Drop> HoldChunk<L, B, S> {
    pub fn open(settings: Settings, sink: S) -> anyhow::Result<HoldChunk<L, B, S>> {
        check::<Double, L, B>(COLUMN, settings).map_err(refused)?;
        Ok(HoldChunk {
            chunk: ColumnChunk::open(COLUMN, settings, sink),
            settings,
            is_begun: false,
        })
    }

    // How many pages it has written.
    pub fn pages(&self) -> usize {
        self.chunk.sink().count()
    }

    // Whether it takes readings: a page is begun only where the chunk may have one more and the sink would take it when it
    // is full, since a page that waits can never be written, and its chunk never closed.
    pub fn has_room(&self) -> bool {
        self.is_begun || self.pages() < 64 && self.takes_page()
    }

    fn takes_page(&self) -> bool {
        let rows = self.settings.row_limit;
        let size = page_size::<L, B>(layout(COLUMN, self.settings), rows, rows.saturating_mul(8));
        size.is_some_and(|size| self.chunk.sink().takes(size).is_ok())
    }

    // Adds readings, at most 256.
    pub fn add(&mut self, heap: Global, holds: &[Option<DoubleBits>]) -> anyhow::Result<()> {
        let defs: Vec<i16> = holds
            .iter()
            .map(|hold| i16::from(hold.is_some()))
            .collect(heap)?;
        let values: Vec<DoubleBits> = holds.iter().filter_map(|hold| *hold).collect(heap)?;
        let batch = Batch {
            count: holds.len(),
            defs: LevelDataRef::Materialized(defs.as_slice()),
            reps: LevelDataRef::absent(),
            values: values.as_slice(),
        };
        let mut scratch = [0; 9227];
        let done = self
            .chunk
            .batch::<DoubleBits>(batch, &mut scratch)
            .map_err(refused)?;
        if done.waiting != 0 {
            // Cutting the page that waits meets the refusal again, and has its words.
            self.chunk.cut(&mut scratch).map_err(refused)?;
        }
        self.is_begun = done.pages_cut == 0;
        Ok(())
    }

    // Writes the last page and closes the chunk, and answers what it says of itself.
    pub fn close(&mut self, heap: Global) -> anyhow::Result<Closed> {
        self.chunk.close(&mut [0; 9227]).map_err(refused)?;
        let index = (0..self.pages())
            .map(|k| self.chunk.entry(k).map_err(refused))
            .try_collect(heap)?;
        Ok(Closed {
            index,
            record: self.chunk.record().map_err(refused)?,
        })
    }

    // The readings of page k, from its bytes in the sink.
    pub fn read(&self, heap: Global, k: usize) -> anyhow::Result<Vec<Option<DoubleBits>>> {
        let mut defs = [0; 1024];
        let mut plain = [0; 8191];
        let counts = self
            .chunk
            .read(k, &mut [], &mut defs, &mut plain)
            .map_err(refused)?;
        let mut holds = Vec::new(heap);
        let mut at = 0usize;
        for level in defs.iter().take(counts.levels) {
            if *level != 1 {
                holds.push(None)?;
                continue;
            }
            let end = at.saturating_add(8);
            let value = plain
                .get(at..end)
                .context("the page has fewer values than levels say")?;
            holds.push(Some(Bits(u64::read(value))))?;
            at = end;
        }
        Ok(holds)
    }

    pub fn into_sink(self) -> S {
        let HoldChunk {
            chunk,
            settings: _,
            is_begun: _,
        } = self;
        chunk.into_sink()
    }
}
