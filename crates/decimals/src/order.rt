ghost use Rattle.std.specs.Prelude.{◌≡◌, ◌≤◌, length, ◌==◌};
ghost use Rattle.std.specs.List.{list_all};
ghost use Rattle.std.specs.Option.{option_copied};
ghost use Rattle.strings.specs.Lexical.{Bytes};
ghost use Rattle.decimals.specs.Decimals.{decimal};
ghost use Rattle.decimals.specs.Extensions.{extension, sign, Unextended};

use strings::compare_greater;

// Whether a is greater than b as big-endian two's complement numbers; the empty one is below all others.
#[tactic(auto, using(crate::proofs::Leads::decides))]
pub fn compare_greater_byte_array_decimals(a: &[u8], b: &[u8]) -> bool
    ensures { result ≡ decimal.greater a.now b.now }
{
    let Some(negative) = is_negative(a) else {
        return false;
    };
    let Some(other) = is_negative(b) else {
        return true;
    };
    if other != negative {
        return !negative;
    }
    // Of one sign: more bytes give the larger magnitude, unless they are sign extension
    let length = a.len().min(b.len());
    let Some(a_last) = unextended(a, length, negative) else {
        return !negative;
    };
    let Some(b_last) = unextended(b, length, negative) else {
        return negative;
    };
    compare_greater(a_last, b_last)
}

// The sign of a number, absent for the empty one.
fn is_negative(number: &[u8]) -> Option<bool>
    ensures sign { result ≡ sign number.now }
    ensures typed { Bytes number.now }
{
    number.first().map(|first| 0x80 <= *first)
}

// So many last bytes of a number, absent if what stands ahead of them is no sign extension.
fn unextended<'a>(number: &'a [u8], count: usize, negative: bool) -> Option<&'a [u8]>
    requires { count ≤ length number.now }
    ensures { Unextended count negative number.now (option_copied result) }
{
    let (lead, last) = number.split_at(number.len() - count);
    is_extension(lead, negative).then_some(last)
}

// Whether each byte is the one that sign extension puts ahead of a number.
fn is_extension(lead: &[u8], negative: bool) -> bool
    ensures { result ≡ list_all (λ x. x == extension negative) lead.now }
{
    let extension = if negative { 0xFF } else { 0 };
    lead.iter().all(|byte| *byte == extension)
}
