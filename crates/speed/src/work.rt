use crate::given::Given;
use areas::Place;
use bodies::Plain;
use chunk::ColumnChunk;
use columns::{Column, Mode, Settings};
use intake::Batch;
use kinds::{Kind, ValueOf};
use level_data::LevelDataRef;
use levels::Packed;
use packed::PackedSink;
use std::time::{Duration, Instant};

type Chunk<'a, K> = ColumnChunk<K, Packed, Plain, PackedSink<'a>>;

const SETTINGS: Settings = Settings {
    version: 1,
    row_limit: 512,
    size_limit: 4096,
    mode: Mode::Page,
    cut_length: Some(64),
};

// A column, its levels and its values.
#[derive(Clone, Copy)]
pub struct Work<'a, V> {
    pub column: Column,
    pub count: usize,
    pub defs: &'a [i16],
    pub reps: &'a [i16],
    pub values: &'a [V],
}

// The memory that a chunk is lent, and lists to read into.
#[derive(Drop)]
struct Room {
    area: Vec<u8>,
    table: Vec<Place>,
    scratch: Vec<u8>,
    reps: Vec<u8>,
    defs: Vec<u8>,
    plain: Vec<u8>,
}

// What was written and read, and how long both took.
#[derive(Clone, Copy)]
struct Done {
    pages: usize,
    bytes: u64,
    nulls: u64,
    read: usize,
    writing: Duration,
    reading: Duration,
}

// Does the work so often, and says what was done; of the times the least.
pub fn repeat<K: Kind, V: ValueOf<K> + Copy>(
    rt: &HostRuntime,
    work: Work<V>,
    given: &Given,
) -> anyhow::Result<()> {
    let heap = rt.alloc();
    let mut room = Room {
        area: vec![in heap; 0u8; 65535]?,
        table: vec![in heap; Place { offset: 0, len: 0 }; 64]?,
        scratch: vec![in heap; 0u8; 9227]?,
        reps: vec![in heap; 0u8; 1024]?,
        defs: vec![in heap; 0u8; 1024]?,
        plain: vec![in heap; 0u8; 8191]?,
    };
    let mut writing = Duration::MAX;
    let mut reading = Duration::MAX;
    for turn in 0..given.times {
        let done = once::<K, V>(rt, work, &mut room, given.reads)?;
        writing = writing.min(done.writing);
        reading = reading.min(done.reading);
        if turn == 0 {
            let Done {
                pages,
                bytes,
                nulls,
                read,
                ..
            } = done;
            println!(rt; "{pages} {bytes} {nulls} {read}")?;
        }
    }
    if given.is_timed {
        let writing = writing.subsec_nanos();
        let reading = reading.subsec_nanos();
        println!(rt; "{writing} {reading}")?;
    }
    Ok(())
}

// Writes the chunk, and then reads it so often.
fn once<K: Kind, V: ValueOf<K> + Copy>(
    rt: &HostRuntime,
    work: Work<V>,
    room: &mut Room,
    reads: usize,
) -> anyhow::Result<Done> {
    let start = Instant::now(rt)?;
    let sink = PackedSink::new(room.area.as_mut_slice(), room.table.as_mut_slice());
    let mut chunk = Chunk::<K>::open(work.column, SETTINGS, sink);
    write::<K, V>(&mut chunk, work, room.scratch.as_mut_slice())?;
    let record = chunk.record()?;
    let pages = entries(&chunk);
    let writing = start.elapsed(rt)?;
    let start = Instant::now(rt)?;
    let mut read = 0usize;
    for _ in 0..reads {
        for k in 0..pages {
            let counts = chunk.read(
                k,
                room.reps.as_mut_slice(),
                room.defs.as_mut_slice(),
                room.plain.as_mut_slice(),
            )?;
            read = read.saturating_add(counts.bytes);
        }
    }
    let reading = start.elapsed(rt)?;
    Ok(Done {
        pages,
        bytes: record.bytes,
        nulls: record.nulls,
        read,
        writing,
        reading,
    })
}

// Writes all levels and values in batches of 256 levels, with a page cut at each 1,024 levels, and closes.
fn write<K: Kind, V: ValueOf<K> + Copy>(
    chunk: &mut Chunk<K>,
    work: Work<V>,
    scratch: &mut [u8],
) -> anyhow::Result<()> {
    let mut values = work.values;
    for turn in 0..work.count.div_ceil(256) {
        let from = turn.saturating_mul(256);
        let to = from.saturating_add(256).min(work.count);
        let batch = Batch {
            count: to.saturating_sub(from),
            defs: part(work.defs, from, to),
            reps: part(work.reps, from, to),
            values,
        };
        let done = chunk.batch::<V>(batch, scratch)?;
        values = values.get(done.values..).unwrap_or(&[]);
        if turn % 4 == 3 {
            chunk.cut(scratch)?;
        }
    }
    chunk.close(scratch)?;
    Ok(())
}

// A part of the levels, absent where there is no such part.
fn part(levels: &[i16], from: usize, to: usize) -> LevelDataRef {
    levels
        .get(from..to)
        .map_or(LevelDataRef::Absent, LevelDataRef::Materialized)
}

// Asks for every entry, and answers how many there are.
fn entries<K: Kind>(chunk: &Chunk<K>) -> usize {
    for k in 0..64 {
        if chunk.entry(k).is_err() {
            return k;
        }
    }
    64
}
