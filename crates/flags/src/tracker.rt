ghost use Rattle.std.specs.Prelude.{◌≡◌};

use buffers::Buffer;
use kinds::Kind;

// A page's smallest and largest value, or its lower and upper bound.
#[derive(Clone, Copy, PartialEq, Eq, Debug)]
pub struct Bounds {
    pub low: Buffer<128>,
    pub high: Buffer<128>,
}

impl Bounds {
    ghost use Rattle.flags.specs.Flags.{rises};
    ghost use Rattle.flags.specs.Tracks.{pair_of};

    // Whether the next page's bounds lie nowhere below these. The other way round, they lie nowhere above.
    fn rises<K: Kind>(&self, next: &Bounds) -> bool
        ensures { result ≡ rises K.Kind.meaning (pair_of self.now) (pair_of next.now) }
    {
        !K::compare_greater(self.low.as_slice(), next.low.as_slice())
            && !K::compare_greater(self.high.as_slice(), next.high.as_slice())
    }
}

// Both orders of the pages so far, and the last that has values.
#[derive(Clone, Copy, PartialEq, Eq, Debug)]
pub struct Tracker {
    last: Option<Bounds>,
    ascending: bool,
    descending: bool,
}

impl Tracker {
    ghost use Rattle.std.specs.Prelude.{◌&&◌, List, [], ◌∷◌, ◌++◌};
    ghost use Rattle.std.specs.Option.{option_map};
    ghost use Rattle.kinds.specs.Meaning.{Meaning};
    ghost use Rattle.flags.specs.Flags.{Pair, rises, falls};
    ghost use Rattle.flags.specs.Tracks.{pair_of, goes_on, Tracks};

    pub fn new() -> Tracker
        ensures { (m : Meaning) → Tracks m [] result }
    {
        Tracker {
            last: None,
            ascending: true,
            descending: true,
        }
    }

    // Takes a page with values behind the others.
    pub fn add<K: Kind>(&mut self, page: Bounds)
        ensures { (ps : List Pair) → Tracks K.Kind.meaning ps self.old → Tracks K.Kind.meaning (ps ++ (pair_of page ∷ [])) self.new }
    {
        (self.ascending, self.descending) = self.orders_with::<K>(&page);
        self.last = Some(page);
    }

    // Both orders with a page more. A match, since with a closure on the last page the check finds no proof by itself.
    fn orders_with<K: Kind>(&self, page: &Bounds) -> (bool, bool)
        ensures ascending { result.0 ≡ (self.now.ascending && goes_on (rises K.Kind.meaning) (option_map pair_of self.now.last) (pair_of page.now)) }
        ensures descending { result.1 ≡ (self.now.descending && goes_on (falls K.Kind.meaning) (option_map pair_of self.now.last) (pair_of page.now)) }
    {
        let Tracker {
            last,
            ascending,
            descending,
        } = self;
        match last {
            None => (*ascending, *descending),
            Some(last) => (
                *ascending && last.rises::<K>(page),
                *descending && page.rises::<K>(last),
            ),
        }
    }

    pub fn is_ascending(self) -> bool
        ensures { result ≡ self.ascending }
    {
        self.ascending
    }

    pub fn is_descending(self) -> bool
        ensures { result ≡ self.descending }
    {
        self.descending
    }
}
