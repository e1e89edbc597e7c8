use areas::Place;
use bodies::{Plain, Split};
use body_coder::BodyCoder;
use chunk::ColumnChunk;
use columns::{Column, Mode, Settings};
use entries::Entry;
use intake::Batch;
use kinds::{Kind, ValueOf};
use level_coder::LevelCoder;
use level_data::LevelDataRef;
use levels::{Legacy, Packed};
use packed::PackedSink;
use page_log::Record;
use pages::PageCounts;
use refusals::{BatchDone, ChunkFault};
use sinks::{Fault, Layer, PageSink, PageStore, Said};
use slotted::SlottedSink;
use std::process::Abort;

// What both sinks and both pairs of coders must do, said once.
pub(crate) trait Scene {
    fn run<A: Abort, L: LevelCoder, B: BodyCoder, S: PageSink + Drop>(rt: &A, sink: S);
}

// Runs a scene over both sinks with areas of this size, and with both pairs of coders.
pub(crate) fn everywhere<T: Scene, A: Abort>(rt: &A, size: usize) {
    over_both::<T, A, Packed, Plain>(rt, size);
    over_both::<T, A, Legacy, Split>(rt, size);
}

fn over_both<T: Scene, A: Abort, L: LevelCoder, B: BodyCoder>(rt: &A, size: usize) {
    let mut area = [7; 65536];
    let mut table = [Place { offset: 9, len: 9 }; 64];
    let size = size.min(65536);
    T::run::<A, L, B, PackedSink>(rt, PackedSink::new(&mut area[..size], &mut table));
    T::run::<A, L, B, SlottedSink>(rt, SlottedSink::new(&mut area[..size]));
}

// A chunk and the scratch that it is lent. Nothing is said of these calls again, so that the proofs of tests stay small.
#[derive(Drop)]
pub(crate) struct Stage<K: Kind, L: LevelCoder, B: BodyCoder, S: PageSink> {
    chunk: ColumnChunk<K, L, B, S>,
    scratch: [u8; 9227],
}

impl<K: Kind, L: LevelCoder, B: BodyCoder, S: PageSink> Stage<K, L, B, S> {
    pub(crate) fn open(column: Column, settings: Settings, sink: S) -> Stage<K, L, B, S> {
        Stage {
            chunk: ColumnChunk::open(column, settings, sink),
            scratch: [0xEE; 9227],
        }
    }

    pub(crate) fn batch<V: ValueOf<K> + Copy>(
        &mut self,
        batch: Batch<V>,
    ) -> Result<BatchDone, ChunkFault> {
        self.chunk.batch(batch, &mut self.scratch)
    }

    // Lends one byte less than a call wants.
    pub(crate) fn batch_short<V: ValueOf<K> + Copy>(
        &mut self,
        batch: Batch<V>,
    ) -> Result<BatchDone, ChunkFault> {
        self.chunk.batch(batch, &mut self.scratch[1..])
    }

    pub(crate) fn cut(&mut self) -> Result<usize, ChunkFault> {
        self.chunk.cut(&mut self.scratch)
    }

    pub(crate) fn cut_short(&mut self) -> Result<usize, ChunkFault> {
        self.chunk.cut(&mut self.scratch[1..])
    }

    pub(crate) fn close(&mut self) -> Result<usize, ChunkFault> {
        self.chunk.close(&mut self.scratch)
    }

    pub(crate) fn close_short(&mut self) -> Result<usize, ChunkFault> {
        self.chunk.close(&mut self.scratch[1..])
    }

    pub(crate) fn entry(&self, k: usize) -> Result<Entry, ChunkFault> {
        self.chunk.entry(k)
    }

    pub(crate) fn record(&self) -> Result<Record, ChunkFault> {
        self.chunk.record()
    }

    pub(crate) fn read(
        &self,
        k: usize,
        reps: &mut [u8],
        defs: &mut [u8],
        plain: &mut [u8],
    ) -> Result<PageCounts, ChunkFault> {
        self.chunk.read(k, reps, defs, plain)
    }

    pub(crate) fn sink(&self) -> &S {
        self.chunk.sink()
    }

    pub(crate) fn into_sink(self) -> S {
        self.chunk.into_sink()
    }

    // How many pages the sink has.
    pub(crate) fn count(&self) -> usize {
        self.chunk.sink().count()
    }

    // Whether the scratch has these bytes at its front, and behind them what it had at first.
    pub(crate) fn has(&self, front: &[u8]) -> bool {
        let behind = self.scratch.strip_prefix(front);
        behind.is_some_and(|behind| behind.iter().all(|byte| *byte == 0xEE))
    }
}

// A column whose values are all there.
pub(crate) fn flat(width: usize) -> Column {
    Column {
        width,
        max_def_level: 0,
        max_rep_level: 0,
    }
}

// A column of lists that may be empty.
pub(crate) fn nested(width: usize) -> Column {
    Column {
        width,
        max_def_level: 2,
        max_rep_level: 1,
    }
}

// Settings with these limits.
pub(crate) fn limits(row_limit: usize, size_limit: usize) -> Settings {
    Settings {
        version: 1,
        row_limit,
        size_limit,
        mode: Mode::Page,
        cut_length: None,
    }
}

// Levels that are given are needed nowhere where both maxima are 0.
pub(crate) fn values_only<V>(values: &[V]) -> Batch<V> {
    Batch {
        count: values.len(),
        defs: LevelDataRef::absent(),
        reps: LevelDataRef::absent(),
        values,
    }
}

// What a refusal says, if it is one.
pub(crate) fn refusal<T: Drop>(answer: Result<T, ChunkFault>) -> Option<Said> {
    match answer {
        Ok(_) => None,
        Err(fault) => Some(fault.said()),
    }
}

pub(crate) fn says(number: u8, layer: Layer, position: usize) -> Option<Said> {
    Some(Said {
        number,
        layer,
        position,
    })
}

pub(crate) fn done(values: usize, pages_cut: usize, waiting: u8) -> Result<BatchDone, ChunkFault> {
    Ok(BatchDone {
        values,
        pages_cut,
        waiting,
    })
}

// The rows, levels, nulls and bytes of a record, if it is there.
pub(crate) fn sums(record: Result<Record, ChunkFault>) -> Option<(u64, u64, u64, u64)> {
    match record {
        Ok(record) => Some((record.rows, record.levels, record.nulls, record.bytes)),
        Err(_) => None,
    }
}

// Where a page lies, if it is there: its offset, its size, its levels and its first row.
pub(crate) fn place(entry: Result<Entry, ChunkFault>) -> Option<(usize, usize, usize, u64)> {
    match entry {
        Ok(entry) => Some((entry.offset, entry.size, entry.levels, entry.first_row)),
        Err(_) => None,
    }
}
