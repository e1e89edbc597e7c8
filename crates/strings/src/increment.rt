ghost use Rattle.std.specs.Prelude.{◌≡◌, ◌+◌, ◌-◌, ◌<◌, ◌∷◌, ◌++◌, length, take, replicate, slice_index};
ghost use Rattle.strings.specs.Cut.{Incremented, LastBelow};
ghost use Rattle.strings.specs.Lexical.{Bytes};

// Adds one to a big-endian number in place. Absent, and nothing changed, where that takes a byte more.
#[tactic(auto, using(crate::proofs::Numbers::incremented))]
pub(crate) fn increment(bytes: &mut [u8]) -> Option<()>
    ensures added { Incremented bytes.old bytes.new result }
    ensures typed { Bytes bytes.old }
{
    let at = last_below_max(bytes)?;
    raise(bytes, at);
    Some(())
}

// Raises the byte at the place, and puts zeros behind it.
fn raise(bytes: &mut [u8], at: usize)
    requires place { at < length bytes.old }
    requires below { slice_index bytes.old at < 255 }
    ensures { bytes.new ≡ take at bytes.old ++ (slice_index bytes.old at + 1) ∷ replicate (length bytes.old - (at + 1)) 0 }
{
    bytes[at] += 1;
    bytes[at + 1..].fill(0);
}

// The place of the last byte that can be raised.
fn last_below_max(bytes: &[u8]) -> Option<usize>
    ensures place { LastBelow bytes.now result }
    ensures typed { Bytes bytes.now }
{
    bytes.iter().rposition(|byte| *byte < 255)
}
