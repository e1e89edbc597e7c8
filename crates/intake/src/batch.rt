ghost use Rattle.std.specs.Prelude.{◌≡◌, count_by, nat_eq};
ghost use Rattle.ledger.specs.Batches.{levels_at};
ghost use Rattle.level_data.specs.Levels.{levels_of};

use crate::levels::Levels;
use level_data::LevelDataRef;
use pages::Layout;

// A batch as it comes: a level count, both kinds of levels, and values.
#[derive_where(Clone, Copy)]
#[derive_where(Debug; V)]
pub struct Batch<'a, V> {
    pub count: usize,
    pub defs: LevelDataRef<'a>,
    pub reps: LevelDataRef<'a>,
    pub values: &'a [V],
}

impl<'a, V> Batch<'a, V> {
    // The definition levels, with the highest that a layout has.
    pub(crate) fn defs_in(self, layout: Layout) -> Levels<'a>
        ensures given { result.given ≡ self.entry.defs }
        ensures max { result.max ≡ layout.max_def_level }
    {
        Levels {
            given: self.defs,
            max: layout.max_def_level,
        }
    }

    // The repetition levels, with the highest that a layout has.
    pub(crate) fn reps_in(self, layout: Layout) -> Levels<'a>
        ensures given { result.given ≡ self.entry.reps }
        ensures max { result.max ≡ layout.max_rep_level }
    {
        Levels {
            given: self.reps,
            max: layout.max_rep_level,
        }
    }
    // How many values a layout needs of it.
    pub(crate) fn needed_in(self, layout: Layout) -> usize
        ensures { result ≡ count_by (nat_eq layout.max_def_level) (levels_at layout.max_def_level self.entry.count (levels_of self.entry.defs)) }
    {
        self.defs_in(layout).needed_count(self.count)
    }
}
