ghost use Rattle.std.specs.Prelude.{◌≡◌, ℕ, ◌+◌, ◌^◌, ◌<◌, ◌≤◌, length};
ghost use Rattle.kinds.specs.Meaning.{Meaning};
ghost use Rattle.figures.specs.Figures.{smallest, largest, lesser, higher};
ghost use Rattle.pages.specs.declared.layout.Layout.{Layout as PageLayout};
ghost use Rattle.ledger.specs.Pages.{Page, blank, join};
ghost use Rattle.metrics.specs.Metrics.{kept, Measures, Sums};

use crate::histogram::{LevelHistogram, add_if_there};
use crate::page::PageMetrics;
use buffers::Buffer;
use figures::{update_max, update_min};
use kinds::Kind;
use pages::Layout;

// The sums over a chunk's pages, and the smallest and largest of all their values.
#[derive(Clone, Copy, PartialEq, Eq, Debug)]
pub struct ColumnMetrics {
    pub total_bytes_written: u64,
    pub total_rows_written: u64,
    pub total_num_values: u64,
    pub num_column_nulls: u64,
    pub num_column_nans: u64,
    pub repetition_level_histogram: Option<LevelHistogram>,
    pub definition_level_histogram: Option<LevelHistogram>,
    pub min_column_value: Option<Buffer<128>>,
    pub max_column_value: Option<Buffer<128>>,
}

// The sums do not tell the pages, so that each contract speaks of all pages that have them.
impl ColumnMetrics {
    // The metrics of a chunk without pages.
    pub fn new(layout: Layout) -> ColumnMetrics
        ensures { (m : Meaning) → layout.max_rep_level ≤ 15 → layout.max_def_level ≤ 15 → Sums m layout blank 0 result }
    {
        ColumnMetrics {
            total_bytes_written: 0,
            total_rows_written: 0,
            total_num_values: 0,
            num_column_nulls: 0,
            num_column_nans: 0,
            repetition_level_histogram: LevelHistogram::try_new(layout.max_rep_level),
            definition_level_histogram: LevelHistogram::try_new(layout.max_def_level),
            min_column_value: None,
            max_column_value: None,
        }
    }

    // Adds a page of so many bytes, with its smallest and largest value.
    pub fn add_page<K: Kind>(
        &mut self,
        page: &PageMetrics,
        min: &Option<Buffer<128>>,
        max: &Option<Buffer<128>>,
        size: usize,
    )
        ensures { (l : PageLayout) (p q : Page) (n : ℕ) → length p.reps + length q.reps < 2 ^ 32 → length p.defs + length q.defs < 2 ^ 32 → length p.values + length q.values < 2 ^ 32 → n + size < 2 ^ 64 → Sums K.Kind.meaning l p n self.old → Measures K.Kind.meaning l q page.now → kept min.now ≡ smallest K.Kind.meaning q.values → kept max.now ≡ largest K.Kind.meaning q.values → Sums K.Kind.meaning l (join p q) (n + size) self.new }
    {
        // `as u64`, since no `From` takes a `usize` to a `u64`.
        self.total_bytes_written = self.total_bytes_written.saturating_add(size as u64);
        self.total_rows_written = self
            .total_rows_written
            .saturating_add(page.num_buffered_rows);
        self.total_num_values = self
            .total_num_values
            .saturating_add(page.num_buffered_values);
        self.num_column_nulls = self.num_column_nulls.saturating_add(page.num_page_nulls);
        self.num_column_nans = self
            .num_column_nans
            .saturating_add(page.num_page_nans.unwrap_or(0));
        add_if_there(
            &mut self.repetition_level_histogram,
            &page.repetition_level_histogram,
        );
        add_if_there(
            &mut self.definition_level_histogram,
            &page.definition_level_histogram,
        );
        take_min::<K>(&mut self.min_column_value, min);
        take_max::<K>(&mut self.max_column_value, max);
    }
}

// Takes a page's smallest value into the chunk's. This and the largest are two functions, since one that is
// given the update as a closure says more about the closure than both say about values.
fn take_min<K: Kind>(all: &mut Option<Buffer<128>>, page: &Option<Buffer<128>>)
    ensures { kept all.new ≡ lesser K.Kind.meaning (kept all.old) (kept page.now) }
{
    if let Some(value) = page {
        update_min::<K, Buffer<128>>(value, all);
    }
}

// Takes a page's largest value into the chunk's.
fn take_max<K: Kind>(all: &mut Option<Buffer<128>>, page: &Option<Buffer<128>>)
    ensures { kept all.new ≡ higher K.Kind.meaning (kept all.old) (kept page.now) }
{
    if let Some(value) = page {
        update_max::<K, Buffer<128>>(value, all);
    }
}
