ghost use Rattle.std.specs.Prelude.{◌≡◌, ◌-◌, ◌^◌, min, true, not, map, length, position};
ghost use Rattle.std.specs.List.{AllByRecursion};
ghost use Rattle.kinds.specs.Plain.{sized};
ghost use Rattle.ledger.specs.Pages.{plains};
ghost use Rattle.intake.specs.Admitting.{weighed};

use kinds::{Kind, ValueOf, plain_size};
use refusals::ChunkFault;

// Whether a value has a length that the width admits.
fn is_sized<K: Kind, V: ValueOf<K>>(width: usize, value: &V) -> bool
    ensures { result ≡ sized width (V.ValueOf.bytes value.now) }
{
    plain_size(width, value.as_bytes(&mut [0; 8])).is_some()
}

// Where the first value of wrong length stands, absent if there is none.
fn find_unsized<K: Kind, V: ValueOf<K>>(width: usize, values: &[V]) -> Option<usize>
    ensures { result ≡ position (λ v. not (sized width (V.ValueOf.bytes v))) values.now }
{
    values
        .iter()
        .position(|value| !is_sized::<K, V>(width, value))
}

// How many plain bytes values of right length have, as far as 64 bits go.
fn plain_length<K: Kind, V: ValueOf<K>>(width: usize, values: &[V]) -> usize
    ensures { AllByRecursion (λ v. sized width v ≡ true) (map V.ValueOf.bytes values.now) → result ≡ min (length (plains width (map V.ValueOf.bytes values.now))) (2 ^ 64 - 1) }
{
    // of one width no value need be looked at
    if width > 0 {
        return values.len().saturating_mul(width);
    }
    sum_of_lengths::<K, V>(values)
}

// The lengths of values, and four for each, as far as 64 bits go.
fn sum_of_lengths<K: Kind, V: ValueOf<K>>(values: &[V]) -> usize
    ensures { result ≡ min (length (plains 0 (map V.ValueOf.bytes values.now))) (2 ^ 64 - 1) }
{
    let mut sum = 0usize;
    for value in values {
        sum = sum
            .saturating_add(4)
            .saturating_add(value.as_bytes(&mut [0; 8]).len());
    }
    sum
}

// The plain bytes of the values, or the refusal of the first whose length is wrong.
pub(crate) fn weigh<K: Kind, V: ValueOf<K>>(width: usize, values: &[V]) -> Result<usize, ChunkFault>
    ensures { result ≡ weighed width (map V.ValueOf.bytes values.now) }
{
    if let Some(at) = find_unsized::<K, V>(width, values) {
        return Err(ChunkFault::ValueLength(at));
    }
    Ok(plain_length::<K, V>(width, values))
}
