ghost use Rattle.std.specs.Prelude.{◌≡◌, ℕ, Bool};
ghost use Rattle.body_coder.specs.Body.{Body, whole, Wrote};

// A way to write the plain bytes of values as other bytes, and to read them from there.
pub trait BodyCoder {
    // What the coder writes and reads, and the two constants below.
    ghost body: { Body };

    // The encoding, by its number in the format.
    const ENCODING: u8;

    // Whether the coder admits BYTE_ARRAY, of which the plain bytes have no common width.
    const BYTE_ARRAY: bool;

    // The two as clauses see them.
    ghost ENCODING: { ℕ };

    ghost BYTE_ARRAY: { Bool };

    // Writes the coded bytes of values of `k` plain bytes each, or of joined ones where `k` is 0, to the front of
    // `out`, and answers how many they are.
    fn code(k: usize, bytes: &[u8], out: &mut [u8]) -> Option<usize>
        ensures { Wrote body k bytes.now (body.coded k bytes.now) out.old out.new result };

    // The same from coded bytes to plain ones.
    fn read(k: usize, bytes: &[u8], out: &mut [u8]) -> Option<usize>
        ensures { Wrote body k bytes.now (body.plain k bytes.now) out.old out.new result };

    // The constants are those of the meaning.
    ghost constants_agree: { (ENCODING ≡ body.number) × (BYTE_ARRAY ≡ body.joins) };

    // `ENCODING`, which the clause names by the meaning.
    final fn encoding_number() -> u8
        ensures { result ≡ body.number }
    {
        Self::ENCODING
    }

    // `BYTE_ARRAY`, which the clause names by the meaning.
    final fn admits_byte_array() -> bool
        ensures { result ≡ body.joins }
    {
        Self::BYTE_ARRAY
    }
}

// Whether bytes are whole values of `k` bytes or, where `k` is 0, joined bytes are admitted.
pub fn is_whole(joins: bool, k: usize, len: usize) -> bool
    ensures { result ≡ whole joins k len }
{
    if k == 0 { joins } else { len % k == 0 }
}
