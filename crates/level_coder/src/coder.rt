ghost use Rattle.std.specs.Prelude.{◌≡◌, ℕ, Bool};
ghost use Rattle.level_coder.specs.Coding.{Coding, Sized, Coded, Read};

// A way to write levels as bytes, and to read them from there.
pub trait LevelCoder {
    // What the coder writes: its bytes, how many they are, and the numbers below.
    ghost coding: { Coding };

    // The encoding, by its number in the format.
    const ENCODING: u8;

    // Whether version 1 puts a length of 4 bytes before a list.
    const FRAMED: bool;

    // Whether version 2 admits the coder.
    const VERSION_2: bool;

    // The three as clauses see them.
    ghost ENCODING: { ℕ };

    ghost FRAMED: { Bool };

    ghost VERSION_2: { Bool };

    // How many bytes `n` levels of `b` bits take.
    fn size(n: usize, b: u32) -> Option<usize>
        ensures { Sized coding n b result };

    // Writes the levels' bytes to the front of `out`, and answers how many they are.
    fn code(levels: &[u8], b: u32, out: &mut [u8]) -> Option<usize>
        ensures { Coded coding b levels.now out.old out.new result };

    // Reads the `n` levels that `bytes` begin with to the front of `levels`, and answers how many bytes they took.
    fn read(bytes: &[u8], n: usize, b: u32, levels: &mut [u8]) -> Option<usize>
        ensures { Read coding b n bytes.now levels.old levels.new result };

    // The constants are those of the meaning.
    ghost constants_agree: { (ENCODING ≡ coding.number) × (FRAMED ≡ coding.framed) × (VERSION_2 ≡ coding.second) };

    // `ENCODING`, which the clause names by the meaning.
    final fn encoding_number() -> u8
        ensures { result ≡ coding.number }
    {
        Self::ENCODING
    }

    // `FRAMED`, which the clause names by the meaning.
    final fn is_framed() -> bool
        ensures { result ≡ coding.framed }
    {
        Self::FRAMED
    }

    // `VERSION_2`, which the clause names by the meaning.
    final fn in_version_2() -> bool
        ensures { result ≡ coding.second }
    {
        Self::VERSION_2
    }
}
