ghost use Rattle.std.specs.Prelude.{◌≡◌};
ghost use Rattle.std.specs.List.{list_all};
ghost use Rattle.std.specs.Option.{option_copied};
ghost use Rattle.texts.specs.Leads.{fits, follower};
ghost use Rattle.texts.specs.Steps.{Step, Valid, AsText};

use crate::leads::{follows, lead_length, second_fits};

// Whether the bytes are text.
pub fn is_utf8(bytes: &[u8]) -> bool
    ensures { Valid bytes.now result }
{
    let mut rest = bytes;
    while let Some(length) = char_length(rest) {
        rest = &rest[length..];
    }
    rest.is_empty()
}

// The bytes as text, absent where they are none.
pub(crate) fn as_text(bytes: &[u8]) -> Option<&str>
    ensures { AsText bytes.now (option_copied result) }
{
    // No `then`: its closure would need a `requires` of its own for the unchecked call, and be no plainer
    if is_utf8(bytes) {
        Some(unsafe { std::str::from_utf8_unchecked(bytes) })
    } else {
        None
    }
}

// How long the character is that begins the bytes, absent where none does.
fn char_length(bytes: &[u8]) -> Option<usize>
    ensures { Step bytes.now result }
{
    let (lead, rest) = bytes.split_first()?;
    let length = usize::from(lead_length(*lead));
    let others = rest.get(..length.checked_sub(1)?)?;
    others_fit(*lead, others).then_some(length)
}

// Whether the bytes may come after the lead byte.
fn others_fit(lead: u8, others: &[u8]) -> bool
    ensures { result ≡ fits lead others.now }
{
    let Some((second, rest)) = others.split_first() else {
        return true;
    };
    second_fits(lead, *second) && all_follow(rest)
}

// Whether each byte may come third or fourth.
fn all_follow(bytes: &[u8]) -> bool
    ensures { result ≡ list_all follower bytes.now }
{
    bytes.iter().all(|byte| follows(*byte))
}
