use body_coder::BodyCoder;
use buffers::Buffer;
use columns::{Column, Mode, Settings};
use entries::{Entry, EntryTable};
use intake::Batch;
use kinds::{Kind, ValueOf};
use level_coder::LevelCoder;
use level_data::LevelDataRef;
use metrics::LevelHistogram;
use page_log::Record;
use refusals::{BatchDone, ChunkFault};
use runs::{Answer, Call, Played, Run, replay_both};
use sinks::{Fault, Layer, PageSink, Said};
use std::process::Abort;

// Nothing is said of this call again, so that the proofs of tests stay small.
pub(crate) fn run_both<
    K: Kind,
    L: LevelCoder,
    B: BodyCoder,
    S: PageSink,
    V: ValueOf<K> + Copy,
    M: LevelCoder,
    C: BodyCoder,
    T: PageSink,
    W: ValueOf<K> + Copy,
>(
    column: Column,
    settings: Settings,
    sink: S,
    calls: &mut [Played<V>],
    other_settings: Settings,
    other_sink: T,
    other_calls: &mut [Played<W>],
    scratch: &mut [u8],
) -> (Run<K, L, B, S>, Run<K, M, C, T>) {
    replay_both(
        column,
        settings,
        sink,
        calls,
        other_settings,
        other_sink,
        other_calls,
        scratch,
    )
}

// Settings with these limits.
pub(crate) fn limits(row_limit: usize, size_limit: usize) -> Settings {
    Settings {
        version: 1,
        row_limit,
        size_limit,
        mode: Mode::Page,
        cut_length: None,
    }
}

// A call that is not played yet.
fn unplayed<'a, V>(call: Call<'a, V>) -> Played<'a, V> {
    Played { call, answer: None }
}

// A batch with these levels and values.
pub(crate) fn batch<'a, V>(
    count: usize,
    defs: LevelDataRef<'a>,
    reps: LevelDataRef<'a>,
    values: &'a [V],
) -> Played<'a, V> {
    unplayed(Call::Batch(Batch {
        count,
        defs,
        reps,
        values,
    }))
}

// A batch of a column whose values are all there.
pub(crate) fn values_only<'a, V>(values: &'a [V]) -> Played<'a, V> {
    batch(
        values.len(),
        LevelDataRef::absent(),
        LevelDataRef::absent(),
        values,
    )
}

pub(crate) fn cut<'a, V>() -> Played<'a, V> {
    unplayed(Call::Cut)
}

pub(crate) fn close<'a, V>() -> Played<'a, V> {
    unplayed(Call::Close)
}

// What a batch answers that is taken.
pub(crate) fn took(values: usize, pages_cut: usize, waiting: u8) -> Answer {
    Answer::Batched(Ok(BatchDone {
        values,
        pages_cut,
        waiting,
    }))
}

// What a batch answers that is refused.
pub(crate) fn refused(fault: ChunkFault) -> Answer {
    Answer::Batched(Err(fault))
}

// What a cut or a close answers.
pub(crate) fn ended(pages: usize) -> Answer {
    Answer::Ended(Ok(pages))
}

// What a cut or a close answers that is refused.
pub(crate) fn unended(fault: ChunkFault) -> Answer {
    Answer::Ended(Err(fault))
}

// The number of the refusal that an answer is, or 0.
fn number(answer: Answer) -> u8 {
    match answer {
        Answer::Batched(Err(fault)) | Answer::Ended(Err(fault)) => fault.number(),
        _ => 0,
    }
}

// Checks that just these answers stand beside the calls, and the number of each that is a refusal.
pub(crate) fn has_answers<A: Abort, V>(rt: &A, calls: &[Played<V>], answers: &[(Answer, u8)]) {
    assert_eq!(rt; calls.len(), answers.len());
    for (k, (call, (answer, refusal))) in calls.iter().zip(answers).enumerate() {
        assert_eq!(rt; call.answer, Some(*answer), "call {k}");
        assert_eq!(rt; number(*answer), *refusal, "call {k}");
    }
}

// Checks that a run has no record, since its chunk is open or its opening was refused.
pub(crate) fn has_no_record<A: Abort>(rt: &A, record: Result<Record, ChunkFault>) {
    let said = Said {
        number: 26,
        layer: Layer::Chunk,
        position: 0,
    };
    assert_eq!(rt; record.err().map(|fault| fault.said()), Some(said));
}

// Whether a figure is there and is this value.
pub(crate) fn is_value(figure: &Option<Buffer<128>>, value: &[u8]) -> bool {
    match figure {
        Some(figure) => figure.as_slice() == value,
        None => false,
    }
}

// Whether level counts are there and are these.
pub(crate) fn is_histogram(histogram: &Option<LevelHistogram>, counts: &[u64]) -> bool {
    match histogram {
        Some(histogram) => histogram.as_slice() == counts,
        None => false,
    }
}

// Where a page lies: its offset, its size, its levels and its first row.
pub(crate) fn place(entry: Entry) -> (usize, usize, usize, u64) {
    (entry.offset, entry.size, entry.levels, entry.first_row)
}

// Checks where the pages of a run lie.
pub(crate) fn has_places<A: Abort>(
    rt: &A,
    entries: &EntryTable,
    places: &[(usize, usize, usize, u64)],
) {
    assert_eq!(rt; entries.len(), places.len());
    for (k, page) in places.iter().enumerate() {
        assert_eq!(rt; entries.get(k).map(place), Some(*page), "page {k}");
    }
}

// The nulls of page k, by its entry.
fn null_count(entries: &EntryTable, k: usize) -> u64 {
    let Some(entry) = entries.get(k) else {
        return 0;
    };
    match &entry.marks {
        Some(marks) => marks.null_count,
        None => 0,
    }
}

// The nulls of all pages, by their entries.
pub(crate) fn nulls(entries: &EntryTable) -> u64 {
    let mut sum = 0u64;
    for k in 0..entries.len() {
        sum = sum.saturating_add(null_count(entries, k));
    }
    sum
}

// Whether bytes are these parts one behind the other, and then as many of one byte as are left.
pub(crate) fn is_made_of(bytes: &[u8], parts: &[&[u8]], fill: u8) -> bool {
    let mut rest = bytes;
    for part in parts {
        let Some(behind) = rest.strip_prefix(*part) else {
            return false;
        };
        rest = behind;
    }
    rest.iter().all(|byte| *byte == fill)
}
