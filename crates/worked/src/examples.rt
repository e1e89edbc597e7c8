ghost use Rattle.std.specs.Prelude.{◌≡◌};
ghost use Rattle.worked.specs.Examples.{Examples};

// How many worked examples there are; each of them stands.
pub fn worked_examples() -> usize
    ensures value { result ≡ 11 }
    ensures examples { Examples }
{
    11
}
