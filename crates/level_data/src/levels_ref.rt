ghost use Rattle.std.specs.Prelude.{◌≡◌, ◌+◌, ◌<◌, ◌≤◌, length, replicate, Some, None, MatchOption};
ghost use Rattle.std.specs.List.{slice_get};
ghost use Rattle.level_data.specs.Levels.{levels_of, listed, Sliced, value_count};

// Borrowed levels. A repeated value stands for the list of that length, so there is no `==`, which would tell the two apart.
#[derive(Clone, Copy, Debug)]
pub enum LevelDataRef<'a> {
    // No levels are given.
    Absent,
    // The levels one by one.
    Materialized(&'a [i16]),
    // One value, so many times.
    Uniform { value: i16, count: usize },
}

impl<'a> LevelDataRef<'a> {
    // No levels.
    pub fn absent() -> LevelDataRef<'a>
        ensures { levels_of result ≡ None }
    {
        LevelDataRef::Absent
    }

    // A value repeated so many times.
    pub fn uniform(value: i16, count: usize) -> LevelDataRef<'a>
        ensures { levels_of result ≡ Some (replicate count value) }
    {
        LevelDataRef::Uniform { value, count }
    }

    // How many levels there are, and 0 where they are absent.
    pub fn len(self) -> usize
        ensures { result ≡ length (listed self.entry) }
    {
        match self {
            Self::Absent => 0,
            Self::Materialized(levels) => levels.len(),
            Self::Uniform { count, .. } => count,
        }
    }

    // The first level, absent where there is none.
    pub fn first(self) -> Option<i16>
        ensures { result ≡ slice_get (listed self.entry) 0 }
    {
        self.value_at(0)
    }

    // The level at the index, absent where there is none.
    pub fn value_at(self, idx: usize) -> Option<i16>
        ensures { result ≡ slice_get (listed self.entry) idx }
    {
        match self {
            Self::Absent => None,
            Self::Materialized(levels) => levels.get(idx).copied(),
            Self::Uniform { value, count } => (idx < count).then_some(value),
        }
    }

    // The `len` levels behind the first `offset`, if there are so many; absent levels stay absent.
    pub fn slice(self, offset: usize, len: usize) -> Option<LevelDataRef<'a>>
        ensures { Sliced self.entry offset len result }
    {
        match self {
            Self::Absent => Some(self),
            Self::Materialized(levels) => {
                let end = end_of(offset, len, levels.len())?;
                levels.get(offset..end).map(Self::Materialized)
            }
            Self::Uniform { value, count } => {
                end_of(offset, len, count)?;
                Some(Self::Uniform { value, count: len })
            }
        }
    }

    // How many of `total` levels have a value: those equal to `max_def`, and all where levels are absent.
    pub fn value_count(self, total: usize, max_def: i16) -> usize
        ensures { result ≡ value_count total max_def (levels_of self.entry) }
    {
        match self {
            Self::Absent => total,
            Self::Materialized(levels) => levels.iter().filter(|level| **level == max_def).count(),
            Self::Uniform { value, count } => { if value == max_def { count } else { 0 } }
        }
    }
}

// Where `len` levels behind the first `offset` end, if there are so many among `count`.
fn end_of(offset: usize, len: usize, count: usize) -> Option<usize>
    ensures { MatchOption result (count < offset + len) (λ end. (end ≡ offset + len) × (end ≤ count)) }
{
    offset.checked_add(len).filter(|end| *end <= count)
}
