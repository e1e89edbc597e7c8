ghost use Rattle.std.specs.Prelude.{◌≡◌, ℕ, ◌≤◌, true, length, Ok};
ghost use Rattle.refusals.specs.Refusals.{tested};
ghost use Rattle.ledger.specs.Ledger.{is_open};
ghost use Rattle.ledger.specs.Context.{due, bytes};
ghost use Rattle.ledger.specs.Answers.{write_tests, done};
ghost use Rattle.chunk.specs.Histories.{History};
ghost use Rattle.chunk.specs.Stands.{Stands, Stood};
ghost use Rattle.chunk.specs.Calls.{scratched, Kept, Wrote, Settled};

use crate::state::State;
use body_coder::BodyCoder;
use kinds::Kind;
use level_coder::LevelCoder;
use pages::{PageFault, takes_page, write_page};
use refusals::{BatchDone, ChunkFault};
use sinks::{Fault, PageSink};

impl<K: Kind, L: LevelCoder, B: BodyCoder, S: PageSink> State<K, L, B, S> {
    // Whether the open page is to be written.
    pub(crate) fn is_due(&self) -> bool
        ensures { (h : History) → Stands h self.now → result ≡ due h.context h.ledger.page }
    {
        self.page.is_due(self.opening.settings)
    }

    // Whether a page of this size may be written.
    fn test_write(&self, size: usize) -> Result<(), ChunkFault>
        ensures { (h : History) → Stands h self.now
            → result ≡ tested (write_tests (S.PageSink.meaning.takes self.now.sink) (length h.ledger.pages) size) (Ok tt) }
    {
        if self.log.len() >= 64 {
            return Err(ChunkFault::Pages);
        }
        takes_page(&self.sink, size)?;
        Ok(())
    }

    // Writes the open page, unless it is empty, and answers how many pages that are. The sink is asked before a byte is written.
    pub(crate) fn add_data_page(&mut self, scratch: &mut [u8]) -> Result<usize, ChunkFault>
        requires phase { is_open self.old.phase ≡ true }
        requires room { 9227 ≤ length scratch.old }
        ensures wrote { (h : History) → Stands h self.old → Wrote h self.old scratch.old result self.new scratch.new }
        ensures kept { ∥ Stood self.old ∥₁ → Kept self.old scratch.old result self.new scratch.new }
    {
        if self.page.level_count() == 0 {
            return Ok(0);
        }
        let size = self.page_size()?;
        self.test_write(size)?;
        let size = self.build_page(scratch)?;
        let offset = write_page(&mut self.sink, &scratch[..size])?;
        // There is room for it, as was tested.
        let _ = self.log.add_data_page::<K>(
            self.opening.settings,
            self.page.metrics(),
            self.page.min(),
            self.page.max(),
            offset,
            size,
        );
        let layout = self.layout();
        self.page.clear::<K>(layout);
        Ok(1)
    }

    // How long the open page is. It is never too long, so that the refusal is not met.
    fn page_size(&self) -> Result<usize, ChunkFault>
        requires phase { is_open self.now.phase ≡ true }
        ensures { (h : History) → Stands h self.now
            → (result ≡ Ok (length (bytes h.context h.ledger.page))) × (length (bytes h.context h.ledger.page) ≤ 9227) }
    {
        let size = self.page.size::<L, B>(self.layout());
        size.ok_or(ChunkFault::Page(PageFault::Scratch))
    }

    // Puts the open page at the front of the scratch. It fits, so that the refusal is not met.
    fn build_page(&self, scratch: &mut [u8]) -> Result<usize, ChunkFault>
        requires phase { is_open self.now.phase ≡ true }
        requires room { 9227 ≤ length scratch.old }
        ensures within { (n : ℕ) → result ≡ Ok n → n ≤ length scratch.new }
        ensures page { (h : History) → Stands h self.now → length (bytes h.context h.ledger.page) ≤ 9227
            → (result ≡ Ok (length (bytes h.context h.ledger.page))) × (scratch.new ≡ scratched (bytes h.context h.ledger.page) 1 scratch.old) }
    {
        let size = self.page.assemble::<L, B>(self.layout(), scratch);
        size.ok_or(ChunkFault::Page(PageFault::Scratch))
    }

    // Writes the open page where it is due, and answers what the batch that made it so did.
    pub(crate) fn settle(&mut self, values: usize, scratch: &mut [u8]) -> BatchDone
        requires phase { is_open self.old.phase ≡ true }
        requires room { 9227 ≤ length scratch.old }
        ensures { (h : History) → Stands h self.old → Settled h values self.old scratch.old result self.new scratch.new }
    {
        if !self.is_due() {
            return batch_done(values, Ok(0));
        }
        batch_done(values, self.add_data_page(scratch))
    }
}

// What a batch did that took so many values, by what writing the page answered: a refusal is waited for.
fn batch_done(values: usize, written: Result<usize, ChunkFault>) -> BatchDone
    ensures { result ≡ done values written }
{
    match written {
        Ok(pages_cut) => BatchDone {
            values,
            pages_cut,
            waiting: 0,
        },
        Err(fault) => BatchDone {
            values,
            pages_cut: 0,
            waiting: fault.number(),
        },
    }
}
