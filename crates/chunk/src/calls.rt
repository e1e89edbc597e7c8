ghost use Rattle.std.specs.Prelude.{◌≡◌, ◌≤◌, true, length, Ok, OnOk};
ghost use Rattle.refusals.specs.Refusals.{tested};
ghost use Rattle.ledger.specs.Ledger.{Ledger, batch as a_batch, cut, close, batched, ended, is_open};
ghost use Rattle.ledger.specs.Context.{layout as layout_in};
ghost use Rattle.ledger.specs.declared.phase.Phase.TheVariants.{Closed};
ghost use Rattle.ledger.specs.Answers.{end_tests, batch_tests};
ghost use Rattle.intake.specs.Admitting.{batch_of, intake_of};
ghost use Rattle.chunk.specs.Histories.{History};
ghost use Rattle.chunk.specs.Stands.{Stands, Stood};
ghost use Rattle.chunk.specs.Calls.{Called, Kept, BatchRefused, EndRefused};

use crate::state::State;
use body_coder::BodyCoder;
use intake::{Batch, Intake, admit};
use kinds::{Kind, ValueOf};
use ledger::Phase;
use level_coder::LevelCoder;
use pages::PageFault;
use refusals::{BatchDone, ChunkFault};
use sinks::PageSink;

impl<K: Kind, L: LevelCoder, B: BodyCoder, S: PageSink> State<K, L, B, S> {
    pub(crate) fn batch<V: ValueOf<K> + Copy>(
        &mut self,
        batch: Batch<V>,
        scratch: &mut [u8],
    ) -> Result<BatchDone, ChunkFault>
        ensures called { (h : History) → Stands h self.old
            → Called h (a_batch (batch_of V.ValueOf.bytes batch.entry)) self.old scratch.old (batched result) self.new scratch.new }
        ensures kept { Kept self.old scratch.old result self.new scratch.new }
        ensures refused { BatchRefused self.old.phase (length scratch.old) result }
    {
        let intake = self.test_batch::<V>(batch, scratch.len())?;
        let layout = self.layout();
        self.page
            .write_mini_batch::<K, V>(layout, batch, intake.values);
        Ok(self.settle(intake.values, scratch))
    }

    pub(crate) fn cut(&mut self, scratch: &mut [u8]) -> Result<usize, ChunkFault>
        ensures called { (h : History) → Stands h self.old → Called h cut self.old scratch.old (ended result) self.new scratch.new }
        ensures kept { ∥ Stood self.old ∥₁ → Kept self.old scratch.old result self.new scratch.new }
        ensures refused { EndRefused self.old.phase (length scratch.old) result }
    {
        self.test_end(scratch.len())?;
        self.add_data_page(scratch)
    }

    pub(crate) fn close(&mut self, scratch: &mut [u8]) -> Result<usize, ChunkFault>
        ensures called { (h : History) → Stands h self.old → Called h close self.old scratch.old (ended result) self.new scratch.new }
        ensures kept { ∥ Stood self.old ∥₁ → Kept self.old scratch.old result self.new scratch.new }
        ensures refused { EndRefused self.old.phase (length scratch.old) result }
    {
        let pages = self.cut(scratch)?;
        self.shut();
        Ok(pages)
    }

    // Nothing is written from here on.
    fn shut(&mut self)
        ensures { self.new ≡ record self.old { phase = Closed } }
    {
        self.phase = Phase::Closed;
    }

    // What a batch is refused for, or what it needs.
    fn test_batch<V: ValueOf<K> + Copy>(
        &self,
        batch: Batch<V>,
        room: usize,
    ) -> Result<Intake, ChunkFault>
        ensures passes { OnOk result ((is_open self.now.phase ≡ true) × (9227 ≤ room)) }
        ensures refused { BatchRefused self.now.phase room result }
        ensures tests { (h : History) → Stands h self.now
            → result ≡ tested (batch_tests h.context room h.ledger (batch_of V.ValueOf.bytes batch.entry)) (Ok (intake_of (layout_in h.context) (batch_of V.ValueOf.bytes batch.entry))) }
    {
        if !self.phase.is_open() {
            return Err(ChunkFault::Closed);
        }
        if self.is_due() {
            return Err(ChunkFault::PageWaits);
        }
        if room < 9227 {
            return Err(ChunkFault::Page(PageFault::Scratch));
        }
        let intake = admit::<K, V>(self.layout(), batch)?;
        if self.page.level_count() + batch.count > 1024 {
            return Err(ChunkFault::Page(PageFault::Levels));
        }
        Ok(intake)
    }

    // What cut and close test first.
    fn test_end(&self, room: usize) -> Result<(), ChunkFault>
        ensures passes { OnOk result ((is_open self.now.phase ≡ true) × (9227 ≤ room)) }
        ensures tests { (l : Ledger) → self.now.phase ≡ l.phase → result ≡ tested (end_tests l room) (Ok tt) }
        ensures refused { EndRefused self.now.phase room result }
    {
        if !self.phase.is_open() {
            return Err(ChunkFault::Closed);
        }
        if room < 9227 {
            return Err(ChunkFault::Page(PageFault::Scratch));
        }
        Ok(())
    }
}
