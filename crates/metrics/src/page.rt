ghost use Rattle.std.specs.Prelude.{◌≡◌, ℕ, ◌+◌, ◌-◌, ◌^◌, ◌<◌, ◌≤◌, ◌==◌, min, not, List, [], length, count_by, nat_eq};
ghost use Rattle.std.specs.Option.{option_map};
ghost use Rattle.kinds.specs.Meaning.{Meaning};
ghost use Rattle.figures.specs.Figures.{nan_count_of};
ghost use Rattle.pages.specs.declared.layout.Layout.{Layout as PageLayout};
ghost use Rattle.ledger.specs.Pages.{Page, blank, join};
ghost use Rattle.metrics.specs.Metrics.{Measures};

use crate::histogram::{LevelHistogram, update_if_there};
use counting::count_of;
use kinds::Kind;
use pages::Layout;

// What is counted of a page. The NaN count is absent for a kind without NaN, a histogram where its maximum is 0.
#[derive(Clone, Copy, PartialEq, Eq, Debug)]
pub struct PageMetrics {
    pub num_buffered_values: u64,
    pub num_buffered_rows: u64,
    pub num_page_nulls: u64,
    pub num_page_nans: Option<u64>,
    pub repetition_level_histogram: Option<LevelHistogram>,
    pub definition_level_histogram: Option<LevelHistogram>,
}

// The counts do not tell the page, so that each contract speaks of every page that has them.
impl PageMetrics {
    // The metrics of an empty page.
    pub fn new<K: Kind>(layout: Layout) -> PageMetrics
        ensures { layout.max_rep_level ≤ 15 → layout.max_def_level ≤ 15 → Measures K.Kind.meaning layout blank result }
    {
        PageMetrics {
            num_buffered_values: 0,
            num_buffered_rows: 0,
            num_page_nulls: 0,
            num_page_nans: K::descriptor().has_nan.then_some(0),
            repetition_level_histogram: LevelHistogram::try_new(layout.max_rep_level),
            definition_level_histogram: LevelHistogram::try_new(layout.max_def_level),
        }
    }

    // Counts levels more of each kind.
    pub fn add_levels(&mut self, layout: Layout, reps: &[u8], defs: &[u8])
        ensures { (m : Meaning) (p : Page) → length p.reps + length reps.now < 2 ^ 32 → length p.defs + length defs.now < 2 ^ 32 → Measures m layout p self.old → Measures m layout (join p (record { reps = reps.now; defs = defs.now; values = [] })) self.new }
    {
        // `as u64`, here and below, since no `From` takes a `usize` to a `u64`.
        self.num_buffered_values = self.num_buffered_values.saturating_add(defs.len() as u64);
        self.num_buffered_rows = self.num_buffered_rows.saturating_add(row_count(reps));
        self.num_page_nulls = self
            .num_page_nulls
            .saturating_add(null_count(layout.max_def_level, defs));
        update_if_there(&mut self.repetition_level_histogram, reps);
        update_if_there(&mut self.definition_level_histogram, defs);
    }

    // Counts the NaN of values that the page takes.
    pub fn add_nans(&mut self, nans: u64)
        ensures { (m : Meaning) (l : PageLayout) (p : Page) (vs : List (List ℕ)) → nans ≡ nan_count_of m vs → nan_count_of m p.values + nans < 2 ^ 64 → Measures m l p self.old → Measures m l (join p (record { reps = []; defs = []; values = vs })) self.new }
    {
        self.num_page_nans = more_nans(self.num_page_nans, nans);
    }
}

// How many rows repetition levels begin.
fn row_count(reps: &[u8]) -> u64
    ensures { result ≡ count_by (nat_eq 0) reps.now }
{
    count_of(0, reps) as u64
}

// How many definition levels are nulls: all but those at the maximum.
fn null_count(max_def_level: u8, defs: &[u8]) -> u64
    ensures { result ≡ count_by (λ d. not (max_def_level == d)) defs.now }
{
    (defs.len() - count_of(max_def_level, defs)) as u64
}

// More NaN counted, where they are counted at all. By itself, so that its equation is proved here, without the page.
fn more_nans(count: Option<u64>, nans: u64) -> Option<u64>
    ensures { result ≡ option_map (λ n. min (n + nans) (2 ^ 64 - 1)) count }
{
    count.map(|n| n.saturating_add(nans))
}
