ghost use Rattle.std.specs.Prelude.{◌≡◌, ◌==◌, not, position, count_by, nat_eq};
ghost use Rattle.level_data.specs.Levels.{levels_of};
ghost use Rattle.ledger.specs.Batches.{absent, empty, miscounted, in_range, looked_at, late, levels_at};
ghost use Rattle.intake.specs.Admitting.{first_stray};

use level_data::LevelDataRef;

// Levels as they come, and the highest that they may be. Where that is 0 they are not looked at.
#[derive(Clone, Copy)]
pub(crate) struct Levels<'a> {
    pub(crate) given: LevelDataRef<'a>,
    pub(crate) max: u8,
}

impl<'a> Levels<'a> {
    // Whether levels are wanted.
    fn is_wanted(self) -> bool
        ensures { result ≡ not (self.entry.max == 0) }
    {
        self.max != 0
    }

    // Whether levels are wanted and were not given.
    pub(crate) fn is_absent(self) -> bool
        ensures { result ≡ absent self.entry.max (levels_of self.entry.given) }
    {
        self.is_wanted() && matches!(self.given, LevelDataRef::Absent)
    }

    // Whether levels are wanted and none was given.
    pub(crate) fn is_empty(self) -> bool
        ensures { result ≡ empty self.entry.max (levels_of self.entry.given) }
    {
        self.is_wanted() && self.given.len() == 0
    }

    // Whether levels are wanted and another number was given.
    pub(crate) fn is_miscounted(self, count: usize) -> bool
        ensures { result ≡ miscounted self.entry.max count (levels_of self.entry.given) }
    {
        self.is_wanted() && self.given.len() != count
    }

    fn is_in_range(self, level: i16) -> bool
        ensures { result ≡ in_range self.entry.max level }
    {
        (0..=i16::from(self.max)).contains(&level)
    }

    // Where the first level out of range stands, absent if there is none.
    #[tactic(auto, using(crate::proofs::Strays::stray_listed, crate::proofs::Strays::stray_repeated))]
    pub(crate) fn find_stray(self) -> Option<usize>
        ensures { result ≡ first_stray self.entry.max (levels_of self.entry.given) }
    {
        if !self.is_wanted() {
            return None;
        }
        match self.given {
            LevelDataRef::Absent => None,
            LevelDataRef::Materialized(levels) => self.find_listed(levels),
            LevelDataRef::Uniform { value, count } => {
                let is_stray = count > 0 && !self.is_in_range(value);
                is_stray.then_some(0)
            }
        }
    }

    // The same in a list. By itself, since beside the `match` the search for a proof stops at a limit.
    fn find_listed(self, levels: &[i16]) -> Option<usize>
        ensures { result ≡ position (λ level. not (in_range self.entry.max level)) levels.now }
    {
        levels.iter().position(|level| !self.is_in_range(*level))
    }

    // Whether the first level that is looked at is not 0.
    pub(crate) fn is_late(self) -> bool
        ensures { result ≡ late (looked_at self.entry.max (levels_of self.entry.given)) }
    {
        self.is_wanted() && self.given.first().is_some_and(|level| level != 0)
    }

    // How many values are needed: one for each definition level at the maximum, and `count` where that is 0.
    pub(crate) fn needed_count(self, count: usize) -> usize
        ensures { result ≡ count_by (nat_eq self.entry.max) (levels_at self.entry.max count (levels_of self.entry.given)) }
    {
        if !self.is_wanted() {
            return count;
        }
        // levels that were not given have no value
        self.given.value_count(0, i16::from(self.max))
    }
}
