ghost use Rattle.std.specs.Prelude.{refl};
ghost use Rattle.bodies.specs.Bodies.{plain_body};

use body_coder::{BodyCoder, is_whole};

// The format's PLAIN.
#[derive(Clone, Copy, PartialEq, Eq, Debug)]
pub struct Plain;

impl BodyCoder for Plain {
    ghost body = { plain_body };

    const ENCODING: u8 = 0;

    const BYTE_ARRAY: bool = true;

    ghost ENCODING = { plain_body.number };

    ghost BYTE_ARRAY = { plain_body.joins };

    ghost constants_agree = { (refl, refl) };

    fn code(k: usize, bytes: &[u8], out: &mut [u8]) -> Option<usize> {
        let len = bytes.len();
        // A test and a range: behind `get_mut` the proof knows no byte of `out`.
        if !is_whole(true, k, len) || out.len() < len {
            return None;
        }
        out[..len].copy_from_slice(bytes);
        Some(len)
    }

    fn read(k: usize, bytes: &[u8], out: &mut [u8]) -> Option<usize> {
        Self::code(k, bytes, out)
    }
}
