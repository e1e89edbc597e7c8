use crate::kind::at_kind;
use crate::opening::Opening;
use crate::{given, report};
use anyhow::{Context, bail};
use areas::Place;
use bodies::{Plain, Split};
use body_coder::BodyCoder;
use chunk::ColumnChunk;
use columns::check;
use intake::Batch;
use kinds::{Kind, ValueOf};
use level_coder::LevelCoder;
use level_data::LevelDataRef;
use levels::{Legacy, Packed};
use packed::PackedSink;
use refusals::{BatchDone, ChunkFault};
use sinks::{Fault, Layer};
use std::alloc::{AllocError, Global};

// A value as a case gives it, whatever its kind and its length.
#[derive(Clone, Copy)]
struct Given<'a>(&'a [u8]);

impl<'v, K> ValueOf<K> for Given<'v> {
    ghost bytes = { λ v. v.0.now };

    fn as_bytes<'a>(&'a self, _room: &'a mut [u8; 8]) -> &'a [u8] {
        self.0
    }
}

// The answers to the lines of a chunk, of which the first opens it.
pub fn answer(heap: Global, lines: &[String]) -> anyhow::Result<Vec<String>> {
    let Some((first, calls)) = lines.split_first() else {
        return Ok(Vec::new(heap));
    };
    let opening = Opening::read(heap, first.as_str())?;
    Ok(at_kind!(opening.kind, answer_of, heap, opening, calls))
}

fn answer_of<K: Kind>(
    heap: Global,
    opening: Opening,
    calls: &[String],
) -> anyhow::Result<Vec<String>> {
    match (opening.is_legacy, opening.is_split) {
        (false, false) => coded::<K, Packed, Plain>(heap, opening, calls),
        (false, true) => coded::<K, Packed, Split>(heap, opening, calls),
        (true, false) => coded::<K, Legacy, Plain>(heap, opening, calls),
        (true, true) => coded::<K, Legacy, Split>(heap, opening, calls),
    }
}

type Held<'a, K, L, B> = ColumnChunk<K, L, B, PackedSink<'a>>;

fn coded<K: Kind, L: LevelCoder, B: BodyCoder>(
    heap: Global,
    opening: Opening,
    calls: &[String],
) -> anyhow::Result<Vec<String>> {
    let mut area = vec![in heap; 0u8; opening.area]?;
    let mut table = vec![in heap; Place { offset: 0, len: 0 }; 64]?;
    let mut scratch = vec![in heap; 0u8; 9227]?;
    let sink = PackedSink::new(area.as_mut_slice(), table.as_mut_slice());
    let mut held = Held::<K, L, B>::open(opening.column, opening.settings, sink);
    let mut pages = Vec::new(heap);
    let mut said = Vec::new(heap);
    said.push(match check::<K, L, B>(opening.column, opening.settings) {
        Ok(()) => String::from_str(heap, "ok")?,
        Err(fault) => refused(heap, fault)?,
    })?;
    for line in calls {
        let answer = call(
            heap,
            &mut held,
            line.as_str(),
            scratch.as_mut_slice(),
            &mut pages,
        )?;
        said.push(answer)?;
    }
    Ok(said)
}

fn call<K: Kind, L: LevelCoder, B: BodyCoder>(
    heap: Global,
    held: &mut Held<K, L, B>,
    line: &str,
    scratch: &mut [u8],
    pages: &mut Vec<Vec<u8>>,
) -> anyhow::Result<String> {
    if line.starts_with('#') {
        return Ok(String::from_str(heap, line)?);
    }
    let words: Vec<&str> = line.split(' ').collect(heap)?;
    match words.as_slice() {
        ["batch", count, defs, reps, values] => {
            let count = count.parse::<usize>().context("a level count")?;
            let done = batch(heap, held, count, defs, reps, values, scratch)?;
            if let Ok(done) = done {
                keep(heap, held, done.pages_cut, scratch, pages)?;
            }
            Ok(batch_said(heap, done)?)
        }
        ["cut"] => {
            let cut = held.cut(scratch);
            keep(heap, held, cut.unwrap_or(0), scratch, pages)?;
            Ok(cut_said(heap, cut)?)
        }
        ["close"] => {
            let cut = held.close(scratch);
            keep(heap, held, cut.unwrap_or(0), scratch, pages)?;
            Ok(cut_said(heap, cut)?)
        }
        ["report"] => match held.record() {
            Ok(record) => reported(heap, held, record, pages.as_slice()),
            Err(_) => Ok(String::from_str(heap, "no-record")?),
        },
        _ => bail!("no call that is known here"),
    }
}

fn batch<K: Kind, L: LevelCoder, B: BodyCoder>(
    heap: Global,
    held: &mut Held<K, L, B>,
    count: usize,
    defs: &str,
    reps: &str,
    values: &str,
    scratch: &mut [u8],
) -> anyhow::Result<Result<BatchDone, ChunkFault>> {
    let def_list = given::level_list(heap, defs)?;
    let rep_list = given::level_list(heap, reps)?;
    let bytes = given::parted(heap, values)?;
    let mut list = Vec::new(heap);
    for value in bytes.iter() {
        list.push(Given(value.as_slice()))?;
    }
    let defs = given::levels(defs, def_list.as_slice())?;
    let reps = given::levels(reps, rep_list.as_slice())?;
    Ok(held.batch::<Given>(batch_of(count, defs, reps, list.as_slice()), scratch))
}

// A function, which lends both lists of levels and the values for one time.
fn batch_of<'a, 'v>(
    count: usize,
    defs: LevelDataRef<'a>,
    reps: LevelDataRef<'a>,
    values: &'a [Given<'v>],
) -> Batch<'a, Given<'v>> {
    Batch {
        count,
        defs,
        reps,
        values,
    }
}

// Keeps the page that a call left at the front of the scratch, if it cut one.
fn keep<K: Kind, L: LevelCoder, B: BodyCoder>(
    heap: Global,
    held: &Held<K, L, B>,
    cut: usize,
    scratch: &[u8],
    pages: &mut Vec<Vec<u8>>,
) -> anyhow::Result<()> {
    if cut > 0 {
        let entry = held.entry(pages.len()).context("the entry of a page")?;
        let page = scratch.get(..entry.size).context("a page in the scratch")?;
        pages.push(Vec::from_slice(heap, page)?)?;
    }
    Ok(())
}

fn batch_said(heap: Global, done: Result<BatchDone, ChunkFault>) -> Result<String, AllocError> {
    match done {
        Ok(done) => {
            let values = done.values;
            let cut = done.pages_cut;
            let waiting = done.waiting;
            format!(in heap; "{values} {cut} {waiting}")
        }
        Err(fault) => refused(heap, fault),
    }
}

fn cut_said(heap: Global, cut: Result<usize, ChunkFault>) -> Result<String, AllocError> {
    match cut {
        Ok(cut) => format!(in heap; "{cut}"),
        Err(fault) => refused(heap, fault),
    }
}

fn refused(heap: Global, fault: ChunkFault) -> Result<String, AllocError> {
    let number = fault.number();
    let position = fault.position();
    let layer = match fault.layer() {
        Layer::Sink => "sink",
        Layer::Page => "page",
        Layer::Chunk => "chunk",
    };
    format!(in heap; "refused {number} {layer} {position}")
}

fn reported<K: Kind, L: LevelCoder, B: BodyCoder>(
    heap: Global,
    held: &Held<K, L, B>,
    record: page_log::Record,
    pages: &[Vec<u8>],
) -> anyhow::Result<String> {
    let mut said = String::new(heap);
    for (k, page) in pages.iter().enumerate() {
        let entry = held.entry(k).context("the entry of a page")?;
        said.push_str(report::entry(heap, entry, page.as_slice())?.as_str())?;
        said.push_str(" | ")?;
    }
    said.push_str(report::record(heap, record)?.as_str())?;
    Ok(said)
}
