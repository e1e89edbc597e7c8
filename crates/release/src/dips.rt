ghost use Rattle.std.specs.Prelude.{◌≡◌, ℕ, false, ◌&&◌, not, Option};
ghost use Rattle.entries.specs.Entries.{said_marks};
ghost use Rattle.floats.specs.Floats.{double};
ghost use Rattle.kinds.specs.Meaning.{greater};
ghost use Rattle.ledger.specs.Entries.{marks};
ghost use Rattle.ledger.specs.Pages.{Page};
ghost use Rattle.pages.specs.declared.layout.Layout.{Layout as PageLayout};
ghost use Rattle.release.specs.Dips.{dips, PassesOver};
ghost use Rattle.words.specs.Words.{eight};

use buffers::Buffer;
use entries::Marks;
use floats::{Double, DoubleBits};
use kinds::{Kind, ValueOf};

// Whether a reading is a number below the limit.
pub fn is_dip(hold: DoubleBits, limit: DoubleBits) -> bool
    ensures { result ≡ dips (eight limit.0) (eight hold.0) }
{
    !Double::is_nan(hold.as_bytes(&mut [0; 8]))
        && Double::compare_greater(limit.as_bytes(&mut [0; 8]), hold.as_bytes(&mut [0; 8]))
}

// Whether a page's bounds admit a dip below the limit. One that does not has none.
#[tactic(auto, using(crate::proofs::Passing::passed_over))]
pub fn admits_dip(page: &Marks, limit: DoubleBits) -> bool
    ensures value { result ≡ (not page.now.null_page && greater double (eight limit.0) page.now.min.bytes) }
    ensures passes_over { (l : PageLayout) (cut : Option ℕ) (p : Page) → said_marks page.now ≡ marks double l cut p → result ≡ false → PassesOver (eight limit.0) p.values }
{
    !page.null_page && is_above(limit, &page.min.bytes)
}

fn is_above(limit: DoubleBits, bound: &Buffer<128>) -> bool
    ensures { result ≡ greater double (eight limit.0) bound.now }
{
    Double::compare_greater(limit.as_bytes(&mut [0; 8]), bound.as_slice())
}
