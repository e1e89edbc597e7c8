ghost use Rattle.std.specs.Prelude.{◌≡◌};
ghost use Rattle.ledger.specs.Ledger.{is_open, has_record};

// Where a chunk stands between its opening and its end.
#[derive(Clone, Copy, PartialEq, Eq, Debug)]
pub enum Phase {
    Open,
    Closed,
    // its opening was refused: closed, and without a record
    Refused,
}

impl Phase {
    pub fn is_open(self) -> bool
        ensures { result ≡ is_open self }
    {
        self == Phase::Open
    }

    pub fn has_record(self) -> bool
        ensures { result ≡ has_record self }
    {
        self == Phase::Closed
    }
}
