ghost use Rattle.std.specs.Prelude.{◌≡◌, cond};
ghost use Rattle.kinds.specs.Meaning.{greater};
ghost use Rattle.figures.specs.Ranked.{HasItsRank};

use kinds::{Kind, ValueOf};

// A value and its rank, so that this is computed once for a value that is compared often.
#[derive(Clone, Copy)]
pub(crate) struct Ranked<V> {
    pub(crate) value: V,
    pub(crate) rank: u64,
}

// A value with its rank.
pub(crate) fn with_rank<K: Kind, V: ValueOf<K>>(value: V) -> Ranked<V>
    ensures value { result.value ≡ value }
    ensures rank { HasItsRank K.Kind.rank V.ValueOf.bytes result }
{
    let rank = K::rank(value.as_bytes(&mut [0; 8]));
    Ranked { value, rank }
}

// The lesser of two values, the first of equal ones.
pub(crate) fn lesser<K: Kind, V: ValueOf<K> + Copy>(a: Ranked<V>, b: Ranked<V>) -> Ranked<V>
    requires first { HasItsRank K.Kind.rank V.ValueOf.bytes a }
    requires second { HasItsRank K.Kind.rank V.ValueOf.bytes b }
    ensures { result ≡ cond (greater K.Kind.meaning (V.ValueOf.bytes a.value) (V.ValueOf.bytes b.value)) b a }
{
    if is_above::<K, V>(&a, &b) { b } else { a }
}

// The higher of two values, the first of equal ones.
pub(crate) fn higher<K: Kind, V: ValueOf<K> + Copy>(a: Ranked<V>, b: Ranked<V>) -> Ranked<V>
    requires first { HasItsRank K.Kind.rank V.ValueOf.bytes a }
    requires second { HasItsRank K.Kind.rank V.ValueOf.bytes b }
    ensures { result ≡ cond (greater K.Kind.meaning (V.ValueOf.bytes b.value) (V.ValueOf.bytes a.value)) b a }
{
    if is_above::<K, V>(&b, &a) { b } else { a }
}

// Whether a value is greater than another.
fn is_above<K: Kind, V: ValueOf<K>>(a: &Ranked<V>, b: &Ranked<V>) -> bool
    requires first { HasItsRank K.Kind.rank V.ValueOf.bytes a.now }
    requires second { HasItsRank K.Kind.rank V.ValueOf.bytes b.now }
    ensures { result ≡ greater K.Kind.meaning (V.ValueOf.bytes a.now.value) (V.ValueOf.bytes b.now.value) }
{
    if K::HAS_RANKS {
        return a.rank > b.rank;
    }
    K::compare_greater(a.value.as_bytes(&mut [0; 8]), b.value.as_bytes(&mut [0; 8]))
}
