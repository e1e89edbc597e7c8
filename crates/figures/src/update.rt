ghost use Rattle.std.specs.Prelude.{◌≡◌, ℕ, Bool, List, Some};
ghost use Rattle.std.specs.Option.{option_map};
ghost use Rattle.figures.specs.Figures.{Tests, replaces, merged, MinUpdated, MaxUpdated};
ghost use Rattle.kinds.specs.Meaning.{greater};

use kinds::{Kind, ValueOf};

// Takes one value more into the smallest of those before it.
pub fn update_min<K: Kind, V: ValueOf<K> + Copy>(value: &V, min: &mut Option<V>)
    ensures { MinUpdated K.Kind.meaning (option_map V.ValueOf.bytes min.old) (V.ValueOf.bytes value.now) (option_map V.ValueOf.bytes min.new) }
{
    update_stat::<K, V, _>(
        value,
        min,
        |old, value|
            ensures { result ≡ greater K.Kind.meaning old.now value.now }
        { K::compare_greater(old, value) },
    );
}

// Takes one value more into the largest of those before it.
pub fn update_max<K: Kind, V: ValueOf<K> + Copy>(value: &V, max: &mut Option<V>)
    ensures { MaxUpdated K.Kind.meaning (option_map V.ValueOf.bytes max.old) (V.ValueOf.bytes value.now) (option_map V.ValueOf.bytes max.new) }
{
    update_stat::<K, V, _>(
        value,
        max,
        |old, value|
            ensures { result ≡ greater K.Kind.meaning value.now old.now }
        { K::compare_greater(value, old) },
    );
}

// Takes one value more into a figure, whatever order of values it is of.
fn update_stat<K: Kind, V: ValueOf<K> + Copy, F: FnOnce(&[u8], &[u8]) -> bool>(
    value: &V,
    stat: &mut Option<V>,
    is_above: F,
)
    requires { F.IsAlwaysCallable is_above }
    ensures { (above : List ℕ → List ℕ → Bool) → Tests (F.post is_above) above → option_map V.ValueOf.bytes stat.new ≡ merged K.Kind.meaning.nan above (option_map V.ValueOf.bytes stat.old) (Some (V.ValueOf.bytes value.now)) }
{
    if stat.is_none_or(|old| replaces::<K, V, F>(&old, value, is_above)) {
        *stat = Some(*value);
    }
}

// Whether a value takes an old one's place: NaN gives way to a number, never the other way round.
fn replaces<K: Kind, V: ValueOf<K>, F: FnOnce(&[u8], &[u8]) -> bool>(
    old: &V,
    value: &V,
    is_above: F,
) -> bool
    requires { F.IsAlwaysCallable is_above }
    ensures { (above : List ℕ → List ℕ → Bool) → Tests (F.post is_above) above → result ≡ replaces (K.Kind.meaning.nan (V.ValueOf.bytes old.now)) (K.Kind.meaning.nan (V.ValueOf.bytes value.now)) (above (V.ValueOf.bytes old.now) (V.ValueOf.bytes value.now)) }
{
    match (is_nan::<K, V>(old), is_nan::<K, V>(value)) {
        (false, true) => false,
        (true, false) => true,
        _ => is_above(old.as_bytes(&mut [0; 8]), value.as_bytes(&mut [0; 8])),
    }
}

// Whether a value is NaN.
pub(crate) fn is_nan<K: Kind, V: ValueOf<K>>(value: &V) -> bool
    ensures { result ≡ K.Kind.meaning.nan (V.ValueOf.bytes value.now) }
{
    K::is_nan(value.as_bytes(&mut [0; 8]))
}
