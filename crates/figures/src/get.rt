ghost use Rattle.std.specs.Prelude.{◌≡◌, ℕ, ◌+◌, ◌^◌, ◌<◌, ◌&&◌, List, cond, map, length, ◌++◌};
ghost use Rattle.std.specs.Option.{option_map};
ghost use Rattle.figures.specs.Figures.{Found, FiguresOf, Joins, MinUpdated, MaxUpdated, AreNumbers, is_number};

use crate::min_max::MinMax;
use crate::ranked::{higher, lesser, with_rank};
use crate::update::{is_nan, update_max, update_min};
use kinds::{Kind, ValueOf};

// The figures of the values, absent if there are none.
#[tactic(auto, using(crate::proofs::Joined::joins))]
pub fn get_min_max<K: Kind, V: ValueOf<K> + Copy>(values: &[V]) -> Option<MinMax<V>>
    ensures found { Found K.Kind.meaning V.ValueOf.bytes (map V.ValueOf.bytes values.now) result }
    ensures joins { Joins K.Kind.meaning }
{
    let mut min = None;
    let mut max = None;
    let mut nan_count = 0;
    let mut at = 0;
    // as long as there is no number
    while at < values.len() && !are_numbers::<K, V>(&min, &max) {
        update_all::<K, V>(&values[at], &mut min, &mut max, &mut nan_count);
        at += 1;
    }
    let figures = MinMax {
        min: min?,
        max: max?,
        nan_count,
    };
    Some(add_to_numbers::<K, V>(figures, &values[at..]))
}

// Takes values into figures that are numbers, so that NaN is counted and nothing else. By values, and not by references, so
// that the compiler keeps the figures where it compares them.
fn add_to_numbers<K: Kind, V: ValueOf<K> + Copy>(figures: MinMax<V>, values: &[V]) -> MinMax<V>
    requires few { figures.nan_count + length values.now < 2 ^ 64 }
    requires numbers { 0 < length values.now → AreNumbers K.Kind.meaning V.ValueOf.bytes figures }
    ensures { (vs : List (List ℕ)) → FiguresOf K.Kind.meaning V.ValueOf.bytes vs figures → FiguresOf K.Kind.meaning V.ValueOf.bytes (vs ++ map V.ValueOf.bytes values.now) result }
{
    let mut min = with_rank::<K, V>(figures.min);
    let mut max = with_rank::<K, V>(figures.max);
    let mut nan_count = figures.nan_count;
    for value in values {
        if is_nan::<K, V>(value) {
            nan_count += 1;
        } else {
            let value = with_rank::<K, V>(*value);
            min = lesser::<K, V>(min, value);
            max = higher::<K, V>(max, value);
        }
    }
    MinMax {
        min: min.value,
        max: max.value,
        nan_count,
    }
}

// Whether both figures are there and no NaN.
fn are_numbers<K: Kind, V: ValueOf<K>>(min: &Option<V>, max: &Option<V>) -> bool
    ensures { result ≡ is_number K.Kind.meaning V.ValueOf.bytes min.now && is_number K.Kind.meaning V.ValueOf.bytes max.now }
{
    is_number::<K, V>(min) && is_number::<K, V>(max)
}

// Whether a figure is there and no NaN.
fn is_number<K: Kind, V: ValueOf<K>>(figure: &Option<V>) -> bool
    ensures { result ≡ is_number K.Kind.meaning V.ValueOf.bytes figure.now }
{
    match figure {
        Some(value) => !is_nan::<K, V>(value),
        None => false,
    }
}

// Takes one value more into all three figures of those before it.
fn update_all<K: Kind, V: ValueOf<K> + Copy>(
    value: &V,
    min: &mut Option<V>,
    max: &mut Option<V>,
    nan_count: &mut u64,
)
    requires { nan_count.old + 1 < 2 ^ 64 }
    ensures min { MinUpdated K.Kind.meaning (option_map V.ValueOf.bytes min.old) (V.ValueOf.bytes value.now) (option_map V.ValueOf.bytes min.new) }
    ensures max { MaxUpdated K.Kind.meaning (option_map V.ValueOf.bytes max.old) (V.ValueOf.bytes value.now) (option_map V.ValueOf.bytes max.new) }
    ensures nans { nan_count.new ≡ nan_count.old + cond (K.Kind.meaning.nan (V.ValueOf.bytes value.now)) 1 0 }
{
    update_min::<K, V>(value, min);
    update_max::<K, V>(value, max);
    *nan_count += u64::from(is_nan::<K, V>(value));
}
