ghost use Rattle.std.specs.Prelude.{◌≡◌, length, count_by, nat_eq};
ghost use Rattle.figures.specs.Figures.{smallest, largest};
ghost use Rattle.pages.specs.declared.layout.Layout.{Layout as PageLayout};
ghost use Rattle.ledger.specs.Pages.{Page};
ghost use Rattle.ledger.specs.Entries.{marks};
ghost use Rattle.metrics.specs.Metrics.{kept, Measures};

use crate::bound::StoredBound;
use buffers::Buffer;
use kinds::Kind;
use metrics::{LevelHistogram, PageMetrics};

// What Page mode keeps of a page. The NaN count is absent for a kind without NaN, a histogram where its maximum is 0.
#[derive(Clone, Copy, PartialEq, Eq, Debug)]
pub struct Marks {
    // the page has no value
    pub null_page: bool,
    pub min: StoredBound,
    pub max: StoredBound,
    pub null_count: u64,
    pub nan_count: Option<u64>,
    pub repetition_level_histogram: Option<LevelHistogram>,
    pub definition_level_histogram: Option<LevelHistogram>,
}

impl Marks {
    ghost use Rattle.entries.specs.Entries.{said_marks};

    // The marks of a page, by its counts and its smallest and largest value. The counts do not tell the page, so that the
    // contract speaks of every page that has them, and a value for each level of the maximum.
    #[tactic(auto, using(crate::proofs::Nulls::null_page_is))]
    pub fn new<K: Kind>(
        cut: Option<usize>,
        page: &PageMetrics,
        min: &Option<Buffer<128>>,
        max: &Option<Buffer<128>>,
    ) -> Marks
        ensures { (l : PageLayout) (p : Page) → length p.values ≡ count_by (nat_eq l.max_def_level) p.defs → Measures K.Kind.meaning l p page.now → kept min.now ≡ smallest K.Kind.meaning p.values → kept max.now ≡ largest K.Kind.meaning p.values → said_marks result ≡ marks K.Kind.meaning l cut p }
    {
        Marks {
            // Every level is a null. That there is no figure would not tell it of a page whose figures were left out.
            null_page: page.num_buffered_values == page.num_page_nulls,
            min: StoredBound::lower::<K>(cut, min),
            max: StoredBound::upper::<K>(cut, max),
            null_count: page.num_page_nulls,
            nan_count: page.num_page_nans,
            repetition_level_histogram: page.repetition_level_histogram,
            definition_level_histogram: page.definition_level_histogram,
        }
    }
}
