ghost use Rattle.std.specs.Prelude.{◌≡◌, ◌+◌, ◌^◌, ◌<◌, length};
ghost use Rattle.figures.specs.Figures.{lesser, higher};
ghost use Rattle.floats.specs.Floats.{double};
ghost use Rattle.ledger.specs.Figures.{figures};
ghost use Rattle.ledger.specs.Pages.{Page, blank, join};
ghost use Rattle.metrics.specs.Metrics.{kept};
ghost use Rattle.page_log.specs.Records.{said_record};
ghost use Rattle.pages.specs.declared.layout.Layout.{Layout as PageLayout};

use buffers::Buffer;
use figures::{update_max, update_min};
use floats::Double;
use page_log::Record;

// What the records of a vat's chunks say together of its hold temperatures.
#[derive(Clone, Copy, PartialEq, Eq, Debug)]
pub struct VatRecord {
    pub rows: u64,
    pub missing: u64,
    pub nans: u64,
    pub min: Option<Buffer<128>>,
    pub max: Option<Buffer<128>>,
}

impl VatRecord {
    ghost use Rattle.release.specs.Records.{Says};

    // The record of a vat without chunks.
    pub fn new() -> VatRecord
        ensures { (l : PageLayout) → Says l blank result }
    {
        VatRecord {
            rows: 0,
            missing: 0,
            nans: 0,
            min: None,
            max: None,
        }
    }

    // Takes in the record of the next chunk.
    pub fn add(&mut self, chunk: &Record)
        ensures { (l : PageLayout) (p q : Page) → length p.reps + length q.reps < 2 ^ 32 → length p.defs + length q.defs < 2 ^ 32 → length p.values + length q.values < 2 ^ 32 → Says l p self.old → (said_record chunk.now).figures ≡ figures double l q → Says l (join p q) self.new }
    {
        self.rows = self.rows.saturating_add(chunk.rows);
        self.missing = self.missing.saturating_add(chunk.nulls);
        self.nans = self.nans.saturating_add(chunk.nans);
        take_min(&mut self.min, &chunk.min);
        take_max(&mut self.max, &chunk.max);
    }
}

// Takes a chunk's smallest hold temperature into the vat's.
fn take_min(vat: &mut Option<Buffer<128>>, chunk: &Option<Buffer<128>>)
    ensures { kept vat.new ≡ lesser double (kept vat.old) (kept chunk.now) }
{
    if let Some(hold) = chunk {
        update_min::<Double, Buffer<128>>(hold, vat);
    }
}

// Takes a chunk's largest hold temperature into the vat's.
fn take_max(vat: &mut Option<Buffer<128>>, chunk: &Option<Buffer<128>>)
    ensures { kept vat.new ≡ higher double (kept vat.old) (kept chunk.now) }
{
    if let Some(hold) = chunk {
        update_max::<Double, Buffer<128>>(hold, vat);
    }
}
