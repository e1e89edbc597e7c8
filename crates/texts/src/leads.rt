ghost use Rattle.std.specs.Prelude.{◌≡◌, nat_lt, slice_index};
ghost use Rattle.texts.specs.Leads.{Leads, lead_length_of, lengths, second, follower};

use crate::lengths::LENGTHS;

// The length of the character that a lead byte begins, or 0 as the table has it, which serves validity and cuts alike.
pub fn lead_length(byte: u8) -> u8
    ensures value { result ≡ lead_length_of byte }
    ensures rule { Leads byte result }
{
    entry(byte)
}

// The table's entry for the byte. In one function with the rule, a wrong entry would only make the proof's answer unfit.
fn entry(byte: u8) -> u8
    ensures { result ≡ slice_index lengths byte }
{
    LENGTHS[usize::from(byte)]
}

// Whether a character begins with the byte.
pub(crate) fn is_lead(byte: u8) -> bool
    ensures { result ≡ nat_lt 0 (lead_length_of byte) }
{
    0 < lead_length(byte)
}

// Whether the byte may come second after the lead byte.
pub(crate) fn second_fits(lead: u8, byte: u8) -> bool
    ensures { result ≡ second lead byte }
{
    match lead {
        0xE0 => matches!(byte, 0xA0..=0xBF),
        0xED => matches!(byte, 0x80..=0x9F),
        0xF0 => matches!(byte, 0x90..=0xBF),
        0xF4 => matches!(byte, 0x80..=0x8F),
        _ => follows(byte),
    }
}

// Whether the byte may come third or fourth.
pub(crate) fn follows(byte: u8) -> bool
    ensures { result ≡ follower byte }
{
    matches!(byte, 0x80..=0xBF)
}
