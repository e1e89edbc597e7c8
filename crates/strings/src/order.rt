ghost use Rattle.std.specs.Prelude.{◌≡◌};
ghost use Rattle.strings.specs.Lexical.{above, Bytes};
ghost use Rattle.strings.specs.Numbers.{front};

// Whether a is greater than b, byte by byte and unsigned; a prefix is below what it begins.
#[tactic(auto, using(crate::proofs::Orders::front_decides))]
pub fn compare_greater(a: &[u8], b: &[u8]) -> bool
    ensures { result ≡ above a.now b.now }
{
    // Most pairs differ in their first four bytes.
    if let (Some(x), Some(y)) = (front(a), front(b)) {
        if x != y {
            return x > y;
        }
    }
    is_after(a, b)
}

// The same of any two. It stands apart and is never inlined, so that the test above stays small enough to be.
#[inline(never)]
#[tactic(auto, using(crate::proofs::Orders::answers_above))]
fn is_after(a: &[u8], b: &[u8]) -> bool
    ensures { result ≡ above a.now b.now }
{
    a.cmp(b).is_gt()
}

// The first four bytes as a number, of a value that has so many.
#[tactic(auto, using(crate::proofs::Numbers::bytes_from))]
fn front(value: &[u8]) -> Option<u32>
    ensures number { result ≡ front value.now }
    ensures typed { Bytes value.now }
{
    match value {
        [a, b, c, d, ..] => Some(u32::from_be_bytes([*a, *b, *c, *d])),
        _ => None,
    }
}
