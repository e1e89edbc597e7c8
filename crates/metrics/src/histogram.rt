ghost use Rattle.std.specs.Prelude.{◌≡◌, ℕ, ◌+◌, ◌^◌, ◌<◌, ◌≤◌, List, [], ◌++◌, length, if◌then◌else◌, None, nat_lt};
ghost use Rattle.ledger.specs.Pages.{tally, counts};
ghost use Rattle.metrics.specs.Histograms.{Grown, Added};

use counting::count_of;
use std::marker::Model;

// A count for each level from 0 to the maximum, in fixed memory, since nothing is allocated. A contract sees the list of
// the counts, that of level 0 first; the memory behind them holds zeros, so that two histograms of the same counts are
// equal.
#[derive(Clone, Copy, PartialEq, Eq, Debug)]
pub struct LevelHistogram {
    counts: [u64; 16],
    len: usize,
}

impl Model for LevelHistogram {
    ghost use Rattle.std.specs.Prelude.{ℕ, List, length, take};
    ghost use Rattle.buffers.specs.Buffers.{IsPadded, padded, padded-take, length-front};

    ghost Value = { List ℕ };

    ghost view = { λ h. take h.len h.counts };

    ghost invariant = { λ h. IsPadded 16 h.len h.counts };

    ghost inverse = { λ cs. record { counts = padded 16 cs; len = length cs } };

    ghost inverse_ok = { λ h p i. record { counts = padded-take 16 h.len h.counts p i; len = length-front 16 h.len h.counts p i } };
}

impl LevelHistogram {
    // Absent for a maximum of 0, which wants no counts, and above 15.
    #[tactic(auto, using(crate::proofs::Tallies::tally_zeros))]
    pub fn try_new(max_level: u8) -> Option<LevelHistogram>
        ensures value { result ≡ (if nat_lt 15 max_level then None else counts max_level []) }
        ensures within { max_level ≤ 15 → result ≡ counts max_level [] }
    {
        if !(1..=15).contains(&max_level) {
            return None;
        }
        Some(LevelHistogram {
            counts: [0; 16],
            len: usize::from(max_level) + 1,
        })
    }

    // Counts levels more. One above the maximum is not counted.
    pub fn update_from_levels(&mut self, levels: &[u8])
        ensures value { Grown self.old levels.now self.new }
        ensures joined { (k : ℕ) (ls : List ℕ) → length ls + length levels.now < 2 ^ 64 → self.old ≡ tally k ls → self.new ≡ tally k (ls ++ levels.now) }
    {
        count_levels(&mut self.counts[..self.len], levels);
    }

    // Adds the counts of another histogram, level by level.
    pub fn add_histogram(&mut self, other: &LevelHistogram)
        ensures value { Added self.old other.now self.new }
        ensures joined { (k : ℕ) (xs ys : List ℕ) → length xs + length ys < 2 ^ 64 → self.old ≡ tally k xs → other.now ≡ tally k ys → self.new ≡ tally k (xs ++ ys) }
    {
        add_counts(&mut self.counts[..self.len], other.as_slice());
    }

    // The counts, that of level 0 first.
    pub fn as_slice(&self) -> &[u64]
        ensures { result.now ≡ self.now }
    {
        &self.counts[..self.len]
    }
}

// Counts levels more, each at its place, up to the highest count. One that has no count is not counted.
fn count_levels(counts: &mut [u64], levels: &[u8])
    requires { length counts.old ≤ 16 }
    ensures { Grown counts.old levels.now counts.new }
{
    // A pass for each count, since each takes a step for sixteen levels.
    for (level, count) in counts.iter_mut().enumerate() {
        // By `as`, since no `From` takes a `usize` to a `u64`, and a level fits a byte.
        *count = count.saturating_add(count_of(level as u8, levels) as u64);
    }
}

// Adds other counts to counts, place by place, up to the highest count.
fn add_counts(counts: &mut [u64], others: &[u64])
    ensures { Added counts.old others.now counts.new }
{
    // by place, since a proof loses the counts under a `zip` of an `iter_mut`
    for (level, count) in counts.iter_mut().enumerate() {
        *count = count.saturating_add(others.get(level).copied().unwrap_or(0));
    }
}

// Counts levels more in a histogram that may be absent.
pub(crate) fn update_if_there(histogram: &mut Option<LevelHistogram>, levels: &[u8])
    ensures { (most : ℕ) (ls : List ℕ) → length ls + length levels.now < 2 ^ 64 → histogram.old ≡ counts most ls → histogram.new ≡ counts most (ls ++ levels.now) }
{
    if let Some(histogram) = histogram {
        histogram.update_from_levels(levels);
    }
}

// Adds a page's histogram to a chunk's, where both are there.
pub(crate) fn add_if_there(all: &mut Option<LevelHistogram>, page: &Option<LevelHistogram>)
    ensures { (most : ℕ) (xs ys : List ℕ) → length xs + length ys < 2 ^ 64 → all.old ≡ counts most xs → page.now ≡ counts most ys → all.new ≡ counts most (xs ++ ys) }
{
    if let (Some(all), Some(page)) = (all, page) {
        all.add_histogram(page);
    }
}
