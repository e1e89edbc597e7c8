ghost use Rattle.std.specs.Prelude.{◌≡◌, ◌/◌, false, Some, None, if◌then◌else◌, refl};
ghost use Rattle.bodies.specs.Bodies.{split_body};
ghost use Rattle.body_coder.specs.Body.{whole};

use body_coder::{BodyCoder, is_whole};
use splits::scatter;

// The format's BYTE_STREAM_SPLIT, for values of equal width.
#[derive(Clone, Copy, PartialEq, Eq, Debug)]
pub struct Split;

impl BodyCoder for Split {
    ghost body = { split_body };

    const ENCODING: u8 = 9;

    const BYTE_ARRAY: bool = false;

    ghost ENCODING = { split_body.number };

    ghost BYTE_ARRAY = { split_body.joins };

    ghost constants_agree = { (refl, refl) };

    fn code(k: usize, bytes: &[u8], out: &mut [u8]) -> Option<usize> {
        let n = value_count(bytes.len(), k)?;
        scatter(bytes, n, k, out)
    }

    fn read(k: usize, bytes: &[u8], out: &mut [u8]) -> Option<usize> {
        let n = value_count(bytes.len(), k)?;
        scatter(bytes, k, n, out)
    }
}

// How many values of `k` bytes `len` bytes are, if they are whole values.
fn value_count(len: usize, k: usize) -> Option<usize>
    ensures { result ≡ (if whole false k len then Some (len / k) else None) }
{
    len.checked_div(k).filter(|_| is_whole(false, k, len))
}
