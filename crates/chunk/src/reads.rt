ghost use Rattle.std.specs.Prelude.{◌≡◌, ℕ, ◌+◌, ◌<◌, ◌≤◌, length, take, map, false, Some, Ok, Err};
ghost use Rattle.std.specs.List.{slice_get};
ghost use Rattle.std.specs.Option.{ok_or};
ghost use Rattle.pages.specs.declared.fault.PageFault.TheVariants.{NoPage};
ghost use Rattle.refusals.specs.declared.fault.ChunkFault.TheVariants.{Page as OfPage, NoRecord as HasNoRecord};
ghost use Rattle.columns.specs.Columns.{layout_of};
ghost use Rattle.ledger.specs.Context.{bytes};
ghost use Rattle.ledger.specs.Ledger.{has_record};
ghost use Rattle.ledger.specs.Numbers.{EntryNumbered, ReadNumbered, RecordNumbered};
ghost use Rattle.entries.specs.Entries.{said_entry};
ghost use Rattle.page_log.specs.Records.{said_record};
ghost use Rattle.chunk.specs.Histories.{History};
ghost use Rattle.chunk.specs.Stands.{Stands, context_in};
ghost use Rattle.chunk.specs.Reads.{answered, offset_of, page_of, EnteredBy, RecordedBy, ReadBy, ReadFrom, IndexedBy};

use crate::chunk::ColumnChunk;
use body_coder::BodyCoder;
use entries::{Entry, EntryTable};
use kinds::Kind;
use level_coder::LevelCoder;
use page_log::Record;
use pages::{PageCounts, PageFault, read_page};
use refusals::ChunkFault;
use sinks::{PageSink, PageStore};

impl<K: Kind, L: LevelCoder, B: BodyCoder, S: PageSink> ColumnChunk<K, L, B, S> {
    // The entry of page k.
    #[tactic(auto, using(ledger::proofs::Numbers::entry_numbered))]
    pub fn entry(&self, k: usize) -> Result<Entry, ChunkFault>
        ensures numbers { EntryNumbered }
        ensures entered { (h : History) → Stands h self.now.state
            → EnteredBy h (offset_of h.before (S.PageStore.meaning.offsets self.now.state.sink) k) k (answered said_entry result) }
    {
        found(self.state.log.entry(k))
    }

    // The entries of all pages, in order: the table has room for as many as a chunk may have.
    pub fn entries(&self) -> EntryTable
        ensures { (h : History) → Stands h self.now.state
            → IndexedBy h (S.PageStore.meaning.offsets self.now.state.sink) (map said_entry result) }
    {
        self.state.log.entries()
    }

    // The record, once the chunk is closed.
    #[tactic(auto, using(ledger::proofs::Numbers::record_numbered))]
    pub fn record(&self) -> Result<Record, ChunkFault>
        ensures recorded { (h : History) → Stands h self.now.state → RecordedBy h (answered said_record result) }
        ensures numbers { RecordNumbered }
        ensures refused { has_record self.now.state.phase ≡ false → result ≡ Err HasNoRecord }
    {
        if !self.state.phase.has_record() {
            return Err(ChunkFault::NoRecord);
        }
        Ok(self.state.log.record(self.state.opening.settings.mode))
    }

    // Reads page k back from the sink: its levels, each list where the maximum is above 0, and its values' plain bytes.
    #[tactic(auto, using(ledger::proofs::Numbers::read_numbered))]
    pub fn read(
        &self,
        k: usize,
        reps: &mut [u8],
        defs: &mut [u8],
        plain: &mut [u8],
    ) -> Result<PageCounts, ChunkFault>
        ensures numbers { ReadNumbered }
        ensures from_sink { ReadFrom (context_in self.now.state) (slice_get (S.PageStore.meaning.pages self.now.state.sink) (self.now.state.base + k))
            reps.old defs.old plain.old result reps.new defs.new plain.new }
        ensures page { (h : History) → Stands h self.now.state → ReadBy h k reps.old defs.old plain.old result reps.new defs.new plain.new }
    {
        let entry = self.entry(k)?;
        let mut room = [0u8; 9227];
        let size = self.copy_page(k, &mut room)?;
        let layout = self.state.layout();
        let counts = read_page::<L, B>(layout, entry.levels, &room[..size], reps, defs, plain);
        counts.ok_or(ChunkFault::Page(PageFault::ReadLists))
    }

    // Copies the bytes of page k from the sink to the front of `room`. They are there and fit, so that the refusal is not met.
    fn copy_page(&self, k: usize, room: &mut [u8]) -> Result<usize, ChunkFault>
        ensures within { (n : ℕ) → result ≡ Ok n → n ≤ length room.new }
        ensures from_sink { (n : ℕ) → result ≡ Ok n
            → slice_get (S.PageStore.meaning.pages self.now.state.sink) (self.now.state.base + k) ≡ Some (take n room.new) }
        ensures page { (h : History) → Stands h self.now.state → k < length h.ledger.pages → 9227 ≤ length room.old
            → (result ≡ Ok (length (bytes h.context (page_of h.ledger k))))
            × (take (length (bytes h.context (page_of h.ledger k))) room.new ≡ bytes h.context (page_of h.ledger k)) }
    {
        let Some(at) = self.state.base.checked_add(k) else {
            return Err(ChunkFault::Page(PageFault::NoPage));
        };
        found(self.state.sink.copy(at, room))
    }
}

// What is known of a page, or the refusal that there is none of that number.
fn found<T>(page: Option<T>) -> Result<T, ChunkFault>
    ensures { result ≡ ok_or page (OfPage NoPage) }
{
    page.ok_or(ChunkFault::Page(PageFault::NoPage))
}
