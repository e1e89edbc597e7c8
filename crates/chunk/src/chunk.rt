ghost use Rattle.std.specs.Prelude.{◌≡◌, length};
ghost use Rattle.page_log.specs.Logs.{context};
ghost use Rattle.ledger.specs.Ledger.{batch as a_batch, cut, close, batched, ended};
ghost use Rattle.ledger.specs.Numbers.{BatchNumbered, EndNumbered};
ghost use Rattle.intake.specs.Admitting.{batch_of};
ghost use Rattle.chunk.specs.Histories.{History, held, begun};
ghost use Rattle.chunk.specs.Stands.{Stands, Stood};
ghost use Rattle.chunk.specs.Calls.{Called, Kept, BatchRefused, EndRefused};

use crate::state::State;
use body_coder::BodyCoder;
use columns::{Column, Settings};
use intake::Batch;
use kinds::{Kind, ValueOf};
use level_coder::LevelCoder;
use refusals::{BatchDone, ChunkFault};
use sinks::{PageSink, PageStore};

// A chunk of one column, over a sink that it holds and alone writes to. By its type it stands to some history, so that what a call
// promises for each history holds of every chunk that there is.
#[derive(Drop)]
pub struct ColumnChunk<K: Kind, L: LevelCoder, B: BodyCoder, S: PageSink> {
    pub(crate) state: State<K, L, B, S>,
    ghost stands: { ∥ Stood state ∥₁ },
}

impl<K: Kind, L: LevelCoder, B: BodyCoder, S: PageSink> ColumnChunk<K, L, B, S> {
    // A chunk without pages. With a column or settings that are not allowed it is closed, and has no record.
    pub fn open(column: Column, settings: Settings, sink: S) -> ColumnChunk<K, L, B, S>
        ensures holds { result.state.sink ≡ sink }
        ensures stands { Stands (begun (context K.Kind.meaning L.LevelCoder.coding B.BodyCoder.body column settings) (held S.PageStore.meaning sink)) result.state }
    {
        ColumnChunk {
            state: State::new(column, settings, sink),
        }
    }

    // Adds a batch's levels, and the values that they need, to the open page, which is written if it is then due.
    #[tactic(auto, using(ledger::proofs::Numbers::batch_numbered))]
    pub fn batch<V: ValueOf<K> + Copy>(
        &mut self,
        batch: Batch<V>,
        scratch: &mut [u8],
    ) -> Result<BatchDone, ChunkFault>
        ensures called { (h : History) → Stands h self.old.state
            → Called h (a_batch (batch_of V.ValueOf.bytes batch.entry)) self.old.state scratch.old (batched result) self.new.state scratch.new }
        ensures kept { Kept self.old scratch.old result self.new scratch.new }
        ensures refused { BatchRefused self.old.state.phase (length scratch.old) result }
        ensures numbers { BatchNumbered }
    {
        self.state.batch::<V>(batch, scratch)
    }

    // Writes the open page, unless it is empty, and answers how many pages that are.
    #[tactic(auto, using(ledger::proofs::Numbers::end_numbered))]
    pub fn cut(&mut self, scratch: &mut [u8]) -> Result<usize, ChunkFault>
        ensures called { (h : History) → Stands h self.old.state → Called h cut self.old.state scratch.old (ended result) self.new.state scratch.new }
        ensures kept { Kept self.old scratch.old result self.new scratch.new }
        ensures refused { EndRefused self.old.state.phase (length scratch.old) result }
        ensures numbers { EndNumbered }
    {
        self.state.cut(scratch)
    }

    // The same, and then the chunk is closed.
    #[tactic(auto, using(ledger::proofs::Numbers::end_numbered))]
    pub fn close(&mut self, scratch: &mut [u8]) -> Result<usize, ChunkFault>
        ensures called { (h : History) → Stands h self.old.state → Called h close self.old.state scratch.old (ended result) self.new.state scratch.new }
        ensures kept { Kept self.old scratch.old result self.new scratch.new }
        ensures refused { EndRefused self.old.state.phase (length scratch.old) result }
        ensures numbers { EndNumbered }
    {
        self.state.close(scratch)
    }

    // The sink, to be asked.
    pub fn sink(&self) -> &S
        ensures { result.now ≡ self.now.state.sink }
    {
        &self.state.sink
    }

    // Gives the sink back.
    pub fn into_sink(self) -> S
        ensures { result ≡ self.state.sink }
    {
        self.state.sink
    }
}
