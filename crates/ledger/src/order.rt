ghost use Rattle.std.specs.Prelude.{◌≡◌, ℕ, List, Option};
ghost use Rattle.kinds.specs.Meaning.{Meaning};
ghost use Rattle.ledger.specs.Laws.{BoundaryOrder as OrdersPages, StoredFlags};
ghost use Rattle.ledger.specs.Pages.{Page};
ghost use Rattle.ledger.specs.Records.{boundary_number, boundary_order_of};

// The format's boundary_order: how the stored bounds of the pages stand, by the format's numbers.
#[derive(Clone, Copy, PartialEq, Eq, Debug)]
pub enum BoundaryOrder {
    Unordered = 0,
    Ascending = 1,
    Descending = 2,
}

impl BoundaryOrder {
    // The number that the format has for it.
    pub fn number(self) -> u8
        ensures { result ≡ boundary_number self }
    {
        // The discriminant is that number.
        self as u8
    }

    // The order that two flags say. By itself, since the law of boundary_order follows from this equation.
    fn from_flags(ascending: bool, descending: bool) -> BoundaryOrder
        ensures { boundary_number result ≡ boundary_order_of ascending descending }
    {
        match (ascending, descending) {
            (true, _) => BoundaryOrder::Ascending,
            (false, true) => BoundaryOrder::Descending,
            (false, false) => BoundaryOrder::Unordered,
        }
    }
}

// The format's boundary_order, from the two flags over the stored bounds. Bounds that ascend and descend,
// as those of one page do, are ascending.
pub fn boundary_order(ascending: bool, descending: bool) -> BoundaryOrder
    ensures value { boundary_number result ≡ boundary_order_of ascending descending }
    ensures says { (m : Meaning) (cut : Option ℕ) (ps : List Page) → StoredFlags m cut ps ascending descending → OrdersPages m cut ps (boundary_number result) }
{
    BoundaryOrder::from_flags(ascending, descending)
}
