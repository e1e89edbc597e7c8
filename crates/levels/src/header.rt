ghost use Rattle.std.specs.Prelude.{◌≡◌, ℕ, ◌<◌, ◌≤◌, List, [], length, take};
ghost use Rattle.levels.specs.Formats.{uleb, header};

use std::marker::Model;

// The bytes before a list's levels, at most two. In fixed memory with a length beside it, since nothing is allocated.
#[derive(Drop)]
pub(crate) struct Header {
    bytes: [u8; 2],
    len: usize,
}

impl Model for Header {
    ghost Value = { List ℕ };

    ghost view = { λ h. take h.len h.bytes };

    ghost invariant = { λ h. h.len ≤ 2 };
}

impl Header {
    // No bytes.
    pub(crate) fn none() -> Header
        ensures { result ≡ [] }
    {
        Header {
            bytes: [0; 2],
            len: 0,
        }
    }

    // The header before `n` levels.
    pub(crate) fn of(n: usize) -> Header
        requires { n ≤ 1024 }
        ensures { result ≡ header n }
    {
        // By `as`, here and below, where the number fits.
        Self::uleb128((2 * n.div_ceil(8) + 1) as u16)
    }

    // The ULEB128 bytes of a number below 2 ^ 14.
    #[tactic(auto, using(crate::specs::Laws::uleb_one, crate::specs::Laws::uleb_two))]
    fn uleb128(v: u16) -> Header
        requires { v < 16384 }
        ensures { result ≡ uleb v }
    {
        if v < 128 {
            Header {
                bytes: [v as u8, 0],
                len: 1,
            }
        } else {
            Header {
                bytes: [(v % 128 + 128) as u8, (v / 128) as u8],
                len: 2,
            }
        }
    }

    // The bytes that count.
    pub(crate) fn as_slice(&self) -> &[u8]
        ensures bytes { result.now ≡ self.now }
        ensures short { length result.now ≤ 2 }
    {
        &self.bytes[..self.len]
    }
}
