ghost use Rattle.chunk.specs.Histories.{History};
ghost use Rattle.chunk.specs.Stands.{Stands};
ghost use Rattle.chunk.specs.Calls.{Called};
ghost use Rattle.runs.specs.Runs.{call_of, answer_of, KeptAs};

use body_coder::BodyCoder;
use chunk::ColumnChunk;
use intake::Batch;
use kinds::{Kind, ValueOf};
use level_coder::LevelCoder;
use refusals::{BatchDone, ChunkFault};
use sinks::PageSink;

// A call that can change a chunk.
#[derive_where(Clone, Copy)]
pub enum Call<'a, V> {
    Batch(Batch<'a, V>),
    Cut,
    Close,
}

// What such a call answered.
#[derive(Clone, Copy, PartialEq, Eq, Debug)]
pub enum Answer {
    Batched(Result<BatchDone, ChunkFault>),
    Ended(Result<usize, ChunkFault>),
}

// A call, and beside it its answer, once it was played.
#[derive_where(Clone, Copy)]
pub struct Played<'a, V> {
    pub call: Call<'a, V>,
    pub answer: Option<Answer>,
}

// Plays a call on a chunk. The answer is that of the call itself, and so are the refusals; below 9,227 bytes of scratch it
// is 3, where 21 or 22 does not come first.
pub fn play<K: Kind, L: LevelCoder, B: BodyCoder, S: PageSink, V: ValueOf<K> + Copy>(
    chunk: &mut ColumnChunk<K, L, B, S>,
    call: Call<V>,
    scratch: &mut [u8],
) -> Answer
    ensures called { (h : History) → Stands h chunk.old.state
        → Called h (call_of V.ValueOf.bytes call.entry) chunk.old.state scratch.old (answer_of result) chunk.new.state scratch.new }
    ensures kept { KeptAs chunk.old scratch.old result chunk.new scratch.new }
{
    match call {
        Call::Batch(batch) => Answer::Batched(chunk.batch(batch, scratch)),
        Call::Cut => Answer::Ended(chunk.cut(scratch)),
        Call::Close => Answer::Ended(chunk.close(scratch)),
    }
}
