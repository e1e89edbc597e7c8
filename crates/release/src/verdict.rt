ghost use Rattle.std.specs.Prelude.{◌≡◌, ℕ, List, Some};
ghost use Rattle.figures.specs.Figures.{smallest as smallest_of};
ghost use Rattle.floats.specs.Floats.{double};
ghost use Rattle.metrics.specs.Metrics.{kept};
ghost use Rattle.release.specs.Release.{decided_on, decided};
ghost use Rattle.words.specs.Words.{eight};

use crate::decision::Decision;
use buffers::Buffer;
use floats::{Double, DoubleBits};
use kinds::{Kind, ValueOf};

// Judges a vat on its smallest hold temperature, as its record has it, at the limit.
pub fn judge(smallest: Option<Buffer<128>>, limit: DoubleBits) -> Decision
    ensures value { result ≡ decided_on (eight limit.0) (kept smallest) }
    ensures holds { (vs : List (List ℕ)) → kept smallest ≡ smallest_of double vs → result ≡ decided (eight limit.0) vs }
{
    smallest.map_or(Decision::NoReading, |smallest| decide(&smallest, limit))
}

fn decide(smallest: &Buffer<128>, limit: DoubleBits) -> Decision
    ensures { result ≡ decided_on (eight limit.0) (Some smallest.now) }
{
    if Double::is_nan(smallest.as_slice()) {
        Decision::ProbeFailed
    } else if Double::compare_greater(limit.as_bytes(&mut [0; 8]), smallest.as_slice()) {
        Decision::BelowLimit
    } else {
        Decision::Released
    }
}
