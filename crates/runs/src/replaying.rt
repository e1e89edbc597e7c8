ghost use Rattle.std.specs.Prelude.{◌≡◌};
ghost use Rattle.page_log.specs.Logs.{context};
ghost use Rattle.chunk.specs.Histories.{History};
ghost use Rattle.chunk.specs.Stands.{Stands};
ghost use Rattle.runs.specs.Runs.{lent_calls, calls_in, answers_in, PlayedAll, Ran};

use crate::call::{Played, play};
use body_coder::BodyCoder;
use chunk::ColumnChunk;
use columns::{Column, Settings};
use entries::EntryTable;
use kinds::{Kind, ValueOf};
use level_coder::LevelCoder;
use page_log::Record;
use refusals::ChunkFault;
use sinks::PageSink;

// A chunk on which calls were played: its record, or why there is none, and the entries of all its pages, in order.
#[derive(Drop)]
pub struct Run<K: Kind, L: LevelCoder, B: BodyCoder, S: PageSink> {
    pub chunk: ColumnChunk<K, L, B, S>,
    pub record: Result<Record, ChunkFault>,
    pub entries: EntryTable,
}

// Plays every call of a list on a chunk, refused ones too, and puts its answer beside it, in place of one that stood there.
// Nothing is refused here: what a call is refused for, such as a scratch below 9,227 bytes, it answers.
pub fn play_all<K: Kind, L: LevelCoder, B: BodyCoder, S: PageSink, V: ValueOf<K> + Copy>(
    chunk: &mut ColumnChunk<K, L, B, S>,
    calls: &mut [Played<V>],
    scratch: &mut [u8],
)
    ensures played { (h : History) → Stands h chunk.old.state
        → PlayedAll h (calls_in V.ValueOf.bytes calls.old) chunk.old.state scratch.old (answers_in calls.new) chunk.new.state scratch.new }
    ensures calls { lent_calls calls.new ≡ lent_calls calls.old }
{
    for at in 0..calls.len() {
        let call = calls[at].call;
        let answer = play(chunk, call, scratch);
        calls[at] = Played {
            call,
            answer: Some(answer),
        };
    }
}

// Opens a chunk and plays every call of a list on it, as `play_all` does. With a column or settings that are not allowed the chunk
// is closed, so that each call answers 21, and asking for the record 26.
pub fn replay<K: Kind, L: LevelCoder, B: BodyCoder, S: PageSink, V: ValueOf<K> + Copy>(
    column: Column,
    settings: Settings,
    sink: S,
    calls: &mut [Played<V>],
    scratch: &mut [u8],
) -> Run<K, L, B, S>
    ensures ran { Ran (context K.Kind.meaning L.LevelCoder.coding B.BodyCoder.body column settings) sink
        (calls_in V.ValueOf.bytes calls.old) scratch.old (answers_in calls.new) result scratch.new }
    ensures calls { lent_calls calls.new ≡ lent_calls calls.old }
{
    let mut chunk = ColumnChunk::open(column, settings, sink);
    play_all(&mut chunk, calls, scratch);
    let record = chunk.record();
    let entries = chunk.entries();
    Run {
        chunk,
        record,
        entries,
    }
}
