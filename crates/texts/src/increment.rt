ghost use Rattle.std.specs.Prelude.{◌≡◌, ◌+◌, ◌≤◌, ◌++◌, length, take, drop, encode_utf8};
ghost use Rattle.std.specs.Char.{len_utf8};
ghost use Rattle.texts.specs.Steps.{Succeeds, RaisedAt};

// The place of the last character that can be raised, and its successor.
pub(crate) fn last_raised(text: &str) -> Option<(usize, char)>
    ensures { RaisedAt text.now result }
{
    // No `find_map`: the proof goes by the text that is left at each character, which its clauses do not show
    for (at, c) in text.char_indices().rev() {
        if let Some(next) = successor(c) {
            return Some((at, next));
        }
    }
    None
}

// The next code point, if it is a character of equal length.
fn successor(c: char) -> Option<char>
    ensures { Succeeds c result }
{
    let next = char::from_u32(u32::from(c) + 1)?;
    (next.len_utf8() == c.len_utf8()).then_some(next)
}

// Raises a text in place: puts a character's successor at its place, and answers how long the text then is.
pub(crate) fn increment_utf8(bytes: &mut [u8], at: usize, next: char) -> usize
    requires { at + len_utf8 next ≤ length bytes.old }
    ensures end { result ≡ at + len_utf8 next }
    ensures put { bytes.new ≡ take at bytes.old ++ (encode_utf8 next ++ drop (at + len_utf8 next) bytes.old) }
{
    // By way of four bytes: the library does not say what `encode_utf8` leaves in a longer slice
    let mut room = [0u8; 4];
    let code = next.encode_utf8(&mut room).as_bytes();
    let end = at + code.len();
    bytes[at..end].copy_from_slice(code);
    end
}
