ghost use Rattle.std.specs.Prelude.{◌≡◌, ℕ, ◌+◌, ◌≤◌, length, map, None};
ghost use Rattle.kinds.specs.Meaning.{Meaning};
ghost use Rattle.kinds.specs.Plain.{Laid};
ghost use Rattle.figures.specs.Figures.{smallest, largest};
ghost use Rattle.pages.specs.Layout.{page_bytes};
ghost use Rattle.pages.specs.declared.layout.Layout.{Layout as PageLayout};
ghost use Rattle.level_data.specs.Levels.{levels_of};
ghost use Rattle.ledger.specs.Pages.{Page, blank, join, levels, plains};
ghost use Rattle.ledger.specs.Context.{Context, due, layout as layout_in};
ghost use Rattle.ledger.specs.Batches.{taken, needed as needed_of, Admitted};
ghost use Rattle.intake.specs.Admitting.{batch_of};
ghost use Rattle.metrics.specs.Metrics.{kept, Measures};
ghost use Rattle.open_page.specs.Pages.{Allowed, Joinable};
ghost use Rattle.open_page.specs.Opened.{slots, Holds, Opened, LevelsAdded, ValuesAdded, Sized};

use crate::levels::batch_levels;
use crate::values::{first, put_values, take_max, take_min};
use body_coder::BodyCoder;
use buffers::Buffer;
use columns::Settings;
use figures::get_min_max;
use intake::Batch;
use kinds::{Kind, ValueOf};
use level_coder::LevelCoder;
use level_data::LevelDataRef;
use metrics::PageMetrics;
use pages::{Layout, assemble, page_size};

// The levels and the plain bytes of the open page, its counts, and its smallest and largest value.
#[derive(Clone, Copy, PartialEq, Eq, Debug)]
pub struct OpenPage {
    reps: Buffer<1024>,
    defs: Buffer<1024>,
    plain: Buffer<8191>,
    metrics: PageMetrics,
    min: Option<Buffer<128>>,
    max: Option<Buffer<128>>,
}

// What is held does not tell the page, so that each contract speaks of every page that may be held so.
impl OpenPage {
    // An empty page.
    pub fn new<K: Kind>(layout: Layout) -> OpenPage
        ensures { Allowed layout → Opened K.Kind.meaning layout blank result }
    {
        OpenPage {
            reps: Buffer::new(),
            defs: Buffer::new(),
            plain: Buffer::new(),
            metrics: PageMetrics::new::<K>(layout),
            min: None,
            max: None,
        }
    }

    // Makes it an empty page again.
    pub fn clear<K: Kind>(&mut self, layout: Layout)
        ensures { Allowed layout → Opened K.Kind.meaning layout blank self.new }
    {
        self.reps.clear();
        self.defs.clear();
        self.plain.clear();
        self.metrics = PageMetrics::new::<K>(layout);
        (self.min, self.max) = (None, None);
    }

    // How many levels the page has.
    pub fn level_count(&self) -> usize
        ensures count { result ≡ length self.now.defs }
        ensures few { result ≤ 1024 }
        ensures page { (m : Meaning) (l : PageLayout) (p : Page) → Opened m l p self.now → result ≡ levels p }
    {
        self.defs.as_slice().len()
    }

    // Whether the page has levels, and its rows or its plain bytes reach their limit.
    pub fn is_due(&self, settings: Settings) -> bool
        ensures { (x : Context) (p : Page) → x.settings ≡ settings → Opened x.kind (layout_in x) p self.now → result ≡ due x p }
    {
        // `as u64`, since no `From` takes a `usize` to a `u64`.
        self.level_count() > 0
            && (self.metrics.num_buffered_rows >= settings.row_limit as u64
                || self.plain.as_slice().len() >= settings.size_limit)
    }

    // Adds the levels of a batch that was admitted, and the values that it needs.
    pub fn write_mini_batch<K: Kind, V: ValueOf<K> + Copy>(
        &mut self,
        layout: Layout,
        batch: Batch<V>,
        needed: usize,
    )
        ensures { (p : Page) → Opened K.Kind.meaning layout p self.old → Admitted layout (batch_of V.ValueOf.bytes batch.entry) → needed ≡ needed_of layout (batch_of V.ValueOf.bytes batch.entry) → levels p + batch.entry.count ≤ 1024 → length (plains layout.width p.values) ≤ 4095 → Opened K.Kind.meaning layout (join p (taken layout (batch_of V.ValueOf.bytes batch.entry))) self.new }
    {
        self.write_levels(layout, batch.count, batch.reps, batch.defs);
        self.write_values::<K, V>(layout, first(batch.values, needed));
    }

    // Adds so many levels of both kinds.
    fn write_levels(&mut self, layout: Layout, count: usize, reps: LevelDataRef, defs: LevelDataRef)
        ensures { LevelsAdded layout count (levels_of reps.entry) (levels_of defs.entry) self.old self.new }
    {
        let reps = batch_levels(reps, layout.max_rep_level, count);
        let defs = batch_levels(defs, layout.max_def_level, count);
        self.push_levels(layout, first(&reps, count), first(&defs, count));
    }

    // Adds levels of both kinds.
    fn push_levels(&mut self, layout: Layout, reps: &[u8], defs: &[u8])
        ensures { (m : Meaning) (p : Page) → length p.reps + length reps.now ≤ 1024 → length p.defs + length defs.now ≤ 1024 → Holds m layout p self.old → Holds m layout (join p (slots reps.now defs.now)) self.new }
    {
        self.reps.extend(reps);
        self.defs.extend(defs);
        self.metrics.add_levels(layout, reps, defs);
    }

    // Adds values: their plain bytes, how many are NaN, and the smallest and the largest of them.
    fn write_values<K: Kind, V: ValueOf<K> + Copy>(&mut self, layout: Layout, values: &[V])
        ensures { ValuesAdded K.Kind.meaning layout (map V.ValueOf.bytes values.now) self.old self.new }
    {
        put_values::<K, V>(&mut self.plain, layout.width, values);
        let Some(figures) = get_min_max::<K, V>(values) else {
            return;
        };
        self.metrics.add_nans(figures.nan_count);
        take_min::<K, V>(&figures.min, &mut self.min);
        take_max::<K, V>(&figures.max, &mut self.max);
    }

    // How many bytes the page has.
    pub fn size<L: LevelCoder, B: BodyCoder>(&self, layout: Layout) -> Option<usize>
        ensures { (m : Meaning) (p : Page) → Opened m layout p self.now → Joinable B.BodyCoder.body layout → Sized (page_bytes L.LevelCoder.coding B.BodyCoder.body layout p.reps p.defs (plains layout.width p.values)) result }
    {
        page_size::<L, B>(layout, self.level_count(), self.plain.as_slice().len())
    }

    // Puts the page's bytes at the front of `out` and answers how many they are, absent if they do not fit.
    pub fn assemble<L: LevelCoder, B: BodyCoder>(
        &self,
        layout: Layout,
        out: &mut [u8],
    ) -> Option<usize>
        ensures page { (m : Meaning) (p : Page) → Opened m layout p self.now → Joinable B.BodyCoder.body layout → Laid (page_bytes L.LevelCoder.coding B.BodyCoder.body layout p.reps p.defs (plains layout.width p.values)) out.old out.new result }
        ensures absent { result ≡ None → out.new ≡ out.old }
        ensures within { (n : ℕ) → result ≡ Some n → n ≤ length out.new }
    {
        assemble::<L, B>(
            layout,
            self.reps.as_slice(),
            self.defs.as_slice(),
            self.plain.as_slice(),
            out,
        )
    }

    // What is counted of the page.
    pub fn metrics(&self) -> &PageMetrics
        ensures { (m : Meaning) (l : PageLayout) (p : Page) → Opened m l p self.now → Measures m l p result.now }
    {
        &self.metrics
    }

    // The smallest value, absent if there is none.
    pub fn min(&self) -> &Option<Buffer<128>>
        ensures { (m : Meaning) (l : PageLayout) (p : Page) → Opened m l p self.now → kept result.now ≡ smallest m p.values }
    {
        &self.min
    }

    // The largest value, absent if there is none.
    pub fn max(&self) -> &Option<Buffer<128>>
        ensures { (m : Meaning) (l : PageLayout) (p : Page) → Opened m l p self.now → kept result.now ≡ largest m p.values }
    {
        &self.max
    }
}
