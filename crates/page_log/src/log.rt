ghost use Rattle.std.specs.Prelude.{◌≡◌, ℕ, ◌<◌, ◌≤◌, List, [], ◌++◌, map, length, count_by, Some, None, nat_eq, slice_index, slice_index_or};
ghost use Rattle.std.specs.Option.{option_map};
ghost use Rattle.std.specs.List.{slice_get};
ghost use Rattle.figures.specs.Figures.{smallest, largest};
ghost use Rattle.level_coder.specs.Coding.{Coding};
ghost use Rattle.body_coder.specs.Body.{Body};
ghost use Rattle.flags.specs.Flags.{Pair};
ghost use Rattle.flags.specs.Tracks.{Tracks};
ghost use Rattle.pages.specs.declared.layout.Layout.{Layout as PageLayout};
ghost use Rattle.columns.specs.declared.column.Column.{Column};
ghost use Rattle.ledger.specs.Context.{Context, layout as layout_of, bytes};
ghost use Rattle.ledger.specs.Entries.{marks, marks_in, entry, entry_list, first_row};
ghost use Rattle.ledger.specs.Pages.{Page, blank, joined, rows};
ghost use Rattle.ledger.specs.Records.{pair_if, stored_if, order, chunk_record};
ghost use Rattle.metrics.specs.Metrics.{kept, Measures, Sums};
ghost use Rattle.entries.specs.Entries.{said_marks, said_entry};
ghost use Rattle.open_page.specs.Pages.{WellFormed};
ghost use Rattle.page_log.specs.Logs.{context, Logged, Logs};
ghost use Rattle.page_log.specs.Records.{said_order, said_record};

use crate::record::{Order, Record};
use buffers::Buffer;
use columns::{Mode, Settings};
use entries::{Entry, EntryTable, Marks, StoredBound};
use flags::{Bounds, Tracker};
use kinds::Kind;
use ledger::boundary_order;
use metrics::{ColumnMetrics, PageMetrics};
use pages::Layout;

// The pages that a chunk wrote, as far as its index and its record tell them: at most 64.
#[derive(Clone, Copy, PartialEq, Eq, Debug)]
pub struct PageLog {
    entries: EntryTable,
    metrics: ColumnMetrics,
    // the orders by the pages' smallest and largest values, and by their stored bounds
    values: Tracker,
    stored: Tracker,
}

// What the log holds does not tell the pages, so that each contract speaks of all pages of which it is the log.
impl PageLog {
    // The log of a chunk without pages.
    pub fn new(layout: Layout) -> PageLog
        ensures { (x : Context) → layout ≡ layout_of x → Logged x [] [] result }
    {
        let (metrics, values) = of_no_page(layout);
        // A copy by itself, since the check gives one variable to one field.
        let stored = values;
        PageLog {
            entries: EntryTable::new(),
            metrics,
            values,
            stored,
        }
    }

    // Takes a page that was written at an offset, in so many bytes, with its counts and its smallest and largest value, or
    // answers `None`, and takes none, where there are 64.
    pub fn add_data_page<K: Kind>(
        &mut self,
        settings: Settings,
        page: &PageMetrics,
        min: &Option<Buffer<128>>,
        max: &Option<Buffer<128>>,
        offset: usize,
        size: usize,
    ) -> Option<()>
        ensures { (c : Coding) (b : Body) (col : Column) (os : List ℕ) (ps : List Page) (p : Page) → let x = context K.Kind.meaning c b col settings in Logged x os ps self.old → Measures x.kind (layout_of x) p page.now → kept min.now ≡ smallest x.kind p.values → kept max.now ≡ largest x.kind p.values → WellFormed (layout_of x) p → size ≡ length (bytes x p) → size ≤ 9227 → Logs x os ps offset p self.old self.new result }
    {
        let entry = self.next_entry::<K>(settings, page, min, max, offset, size);
        self.entries.push(entry)?;
        track_values::<K>(&mut self.values, min, max);
        track_stored::<K>(&mut self.stored, settings.cut_length, min, max);
        self.metrics.add_page::<K>(page, min, max, size);
        Some(())
    }

    // The entry of a page behind all others.
    fn next_entry<K: Kind>(
        &self,
        settings: Settings,
        page: &PageMetrics,
        min: &Option<Buffer<128>>,
        max: &Option<Buffer<128>>,
        offset: usize,
        size: usize,
    ) -> Entry
        ensures { (c : Coding) (b : Body) (col : Column) (ps : List Page) (p : Page) → let x = context K.Kind.meaning c b col settings in self.now.metrics.total_rows_written ≡ rows (joined ps) → Measures x.kind (layout_of x) p page.now → kept min.now ≡ smallest x.kind p.values → kept max.now ≡ largest x.kind p.values → WellFormed (layout_of x) p → size ≡ length (bytes x p) → said_entry result ≡ entry x offset (rows (joined ps)) p }
    {
        Entry {
            offset,
            size,
            // By `as`, since no `From` takes a `u64` to a `usize`.
            levels: page.num_buffered_values as usize,
            first_row: self.metrics.total_rows_written,
            marks: marks_in::<K>(settings, page, min, max),
        }
    }

    // How many pages there are.
    #[tactic(auto, using(crate::proofs::Logging::entry_count))]
    pub fn len(&self) -> usize
        ensures pages { (x : Context) (os : List ℕ) (ps : List Page) → Logged x os ps self.now → result ≡ length ps }
        ensures within { result ≤ 64 }
    {
        self.entries.len()
    }

    // The entry of page k, absent where there is no such page.
    #[tactic(auto, using(crate::proofs::Logging::entry_there, crate::proofs::Logging::entry_past))]
    pub fn entry(&self, k: usize) -> Option<Entry>
        ensures listed { (x : Context) (os : List ℕ) (ps : List Page) → Logged x os ps self.now → option_map said_entry result ≡ slice_get (entry_list x 0 os ps) k }
        ensures there { (x : Context) (os : List ℕ) (ps : List Page) → Logged x os ps self.now → k < length ps → option_map said_entry result ≡ Some (entry x (slice_index os k) (first_row ps k) (slice_index_or ps k blank)) }
        ensures past { (x : Context) (os : List ℕ) (ps : List Page) → Logged x os ps self.now → length ps ≤ k → result ≡ None }
    {
        self.entries.get(k)
    }

    // The entries of all pages, in order.
    pub fn entries(&self) -> EntryTable
        ensures { (x : Context) (os : List ℕ) (ps : List Page) → Logged x os ps self.now → map said_entry result ≡ entry_list x 0 os ps }
    {
        let PageLog { entries, .. } = *self;
        entries
    }

    // The record of a chunk that wrote these pages.
    pub fn record(&self, mode: Mode) -> Record
        ensures { (x : Context) (os : List ℕ) (ps : List Page) → mode ≡ x.settings.mode → Logged x os ps self.now → said_record result ≡ chunk_record x ps }
    {
        let ColumnMetrics {
            total_bytes_written,
            total_rows_written,
            total_num_values,
            num_column_nulls,
            num_column_nans,
            repetition_level_histogram,
            definition_level_histogram,
            min_column_value,
            max_column_value,
        } = self.metrics;
        Record {
            rows: total_rows_written,
            levels: total_num_values,
            nulls: num_column_nulls,
            nans: num_column_nans,
            repetition_level_histogram,
            definition_level_histogram,
            min: min_column_value,
            max: max_column_value,
            bytes: total_bytes_written,
            order: (mode == Mode::Page).then(|| self.order()),
        }
    }

    // The orders of the pages: by their values, and by what is stored.
    fn order(&self) -> Order
        ensures { (x : Context) (os : List ℕ) (ps : List Page) → Logged x os ps self.now → said_order result ≡ order x ps }
    {
        Order {
            ascending: self.values.is_ascending(),
            descending: self.values.is_descending(),
            boundary: boundary_order(self.stored.is_ascending(), self.stored.is_descending()),
        }
    }
}

// The sums and the order of no page. By itself, so that the maxima, at most 15 whatever column was given, are looked at here.
fn of_no_page(layout: Layout) -> (ColumnMetrics, Tracker)
    ensures { (x : Context) → layout ≡ layout_of x → Sums x.kind (layout_of x) blank 0 result.0 × Tracks x.kind [] result.1 }
{
    (ColumnMetrics::new(layout), Tracker::new())
}

// The marks of a page, which Page mode keeps.
fn marks_in<K: Kind>(
    settings: Settings,
    page: &PageMetrics,
    min: &Option<Buffer<128>>,
    max: &Option<Buffer<128>>,
) -> Option<Marks>
    ensures { (l : PageLayout) (p : Page) → length p.values ≡ count_by (nat_eq l.max_def_level) p.defs → Measures K.Kind.meaning l p page.now → kept min.now ≡ smallest K.Kind.meaning p.values → kept max.now ≡ largest K.Kind.meaning p.values → option_map said_marks result ≡ marks_in settings.mode (marks K.Kind.meaning l settings.cut_length p) }
{
    match settings.mode {
        Mode::Chunk => None,
        Mode::Page => Some(Marks::new::<K>(settings.cut_length, page, min, max)),
    }
}

// Takes a page's smallest and largest value into the order of the pages, where it has values.
fn track_values<K: Kind>(pages: &mut Tracker, min: &Option<Buffer<128>>, max: &Option<Buffer<128>>)
    ensures { (ps : List Pair) → Tracks K.Kind.meaning ps pages.old → Tracks K.Kind.meaning (ps ++ pair_if (kept min.now) (kept max.now)) pages.new }
{
    if let (Some(low), Some(high)) = (min, max) {
        pages.add::<K>(Bounds {
            low: *low,
            high: *high,
        });
    }
}

// Takes the bounds of a page, as they are stored, into the order of the pages, where it has values.
fn track_stored<K: Kind>(
    pages: &mut Tracker,
    cut: Option<usize>,
    min: &Option<Buffer<128>>,
    max: &Option<Buffer<128>>,
)
    ensures { (ps : List Pair) → Tracks K.Kind.meaning ps pages.old → Tracks K.Kind.meaning (ps ++ stored_if K.Kind.meaning cut (kept min.now) (kept max.now)) pages.new }
{
    if let (Some(_), Some(_)) = (min, max) {
        pages.add::<K>(Bounds {
            low: StoredBound::lower::<K>(cut, min).bytes,
            high: StoredBound::upper::<K>(cut, max).bytes,
        });
    }
}
