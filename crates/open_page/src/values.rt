ghost use Rattle.std.specs.Prelude.{◌≡◌, true, ◌+◌, ◌≤◌, ◌++◌, length, map, take, Some};
ghost use Rattle.std.specs.List.{AllByRecursion};
ghost use Rattle.kinds.specs.Plain.{sized, plain as plain_of};
ghost use Rattle.figures.specs.Figures.{lesser, higher};
ghost use Rattle.metrics.specs.Metrics.{kept};
ghost use Rattle.ledger.specs.Pages.{plains};

use buffers::Buffer;
use figures::{update_max, update_min};
use kinds::{Kind, ValueOf, four_bytes};

// So many of the values, from the first; none if there are not so many.
pub(crate) fn first<V>(values: &[V], count: usize) -> &[V]
    ensures { count ≤ length values.now → result.now ≡ take count values.now }
{
    values.get(..count).unwrap_or(&[])
}

// Puts the plain bytes of a BYTE_ARRAY behind others: its length in four bytes, then its own.
fn put_byte_array<K: Kind, V: ValueOf<K>>(plain: &mut Buffer<8191>, value: &V)
    ensures { length plain.old + length (plain_of 0 (V.ValueOf.bytes value.now)) ≤ 8191 → plain.new ≡ plain.old ++ plain_of 0 (V.ValueOf.bytes value.now) }
{
    let mut room = [0; 8];
    let bytes = value.as_bytes(&mut room);
    plain.extend(&four_bytes(bytes.len()));
    plain.extend(bytes);
}

// Puts the plain bytes of values behind others: all at once where the column has a width, and else one value after the
// other.
pub(crate) fn put_values<K: Kind, V: ValueOf<K>>(
    plain: &mut Buffer<8191>,
    width: usize,
    values: &[V],
)
    ensures { width ≤ 128 → AllByRecursion (λ v. sized width v ≡ true) (map V.ValueOf.bytes values.now) → length plain.old + length (plains width (map V.ValueOf.bytes values.now)) ≤ 8191 → plain.new ≡ plain.old ++ plains width (map V.ValueOf.bytes values.now) }
{
    if width > 0 {
        plain.extend_all::<K, V>(values);
        return;
    }
    for value in values {
        put_byte_array::<K, V>(plain, value);
    }
}

// A value as it is kept.
fn keep<K: Kind, V: ValueOf<K>>(value: &V) -> Buffer<128>
    ensures { length (V.ValueOf.bytes value.now) ≤ 128 → result ≡ V.ValueOf.bytes value.now }
{
    let mut kept = Buffer::new();
    kept.extend(value.as_bytes(&mut [0; 8]));
    kept
}

// Takes the smallest of some values into the smallest of those before them.
pub(crate) fn take_min<K: Kind, V: ValueOf<K>>(value: &V, min: &mut Option<Buffer<128>>)
    ensures { length (V.ValueOf.bytes value.now) ≤ 128 → kept min.new ≡ lesser K.Kind.meaning (kept min.old) (Some (V.ValueOf.bytes value.now)) }
{
    update_min::<K, Buffer<128>>(&keep::<K, V>(value), min);
}

// Takes the largest of some values into the largest of those before them.
pub(crate) fn take_max<K: Kind, V: ValueOf<K>>(value: &V, max: &mut Option<Buffer<128>>)
    ensures { length (V.ValueOf.bytes value.now) ≤ 128 → kept max.new ≡ higher K.Kind.meaning (kept max.old) (Some (V.ValueOf.bytes value.now)) }
{
    update_max::<K, Buffer<128>>(&keep::<K, V>(value), max);
}
