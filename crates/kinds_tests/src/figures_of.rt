ghost use Rattle.std.specs.Int.{w32};
ghost use Rattle.std.proofs.Common.{of_z};
ghost use Rattle.kinds.specs.Plain.{four};

use figures::{get_min_max, update_max, update_min};
use floats::{Bits, Float, FloatBits};
use ints::Int32;
use kinds::ValueOf;
use std::test::Fail;
use words::Word;

const NAN: FloatBits = Bits(0x7FC0_0000);

const LOW_NAN: FloatBits = Bits(0xFFC0_0000);

const ONE: FloatBits = Bits(0x3F80_0000);

const TWO: FloatBits = Bits(0x4000_0000);

// The smallest and the largest of FLOAT values, and how many are NaN.
fn figures(values: &[FloatBits]) -> Option<(FloatBits, FloatBits, u64)> {
    get_min_max::<Float, FloatBits>(values).map(|f| (f.min, f.max, f.nan_count))
}

#[test]
fn nan_gives_way(rt: HostRuntime) {
    assert_eq!(rt; figures(&[NAN, ONE, TWO]), Some((ONE, TWO, 1)));
    assert_eq!(rt; figures(&[TWO, ONE, NAN]), Some((ONE, TWO, 1)));
    assert_eq!(rt; figures(&[TWO, LOW_NAN, ONE]), Some((ONE, TWO, 1)));
    assert_eq!(rt; figures(&[NAN, LOW_NAN]), Some((LOW_NAN, NAN, 2)));
    assert_eq!(rt; figures(&[NAN]), Some((NAN, NAN, 1)));
    assert_eq!(rt; figures(&[ONE]), Some((ONE, ONE, 0)));
    assert_eq!(rt; figures(&[NAN, NAN, ONE, LOW_NAN]), Some((ONE, ONE, 3)));
    assert_eq!(rt; figures(&[]), None);
}

#[test]
fn zeros_differ(rt: HostRuntime) {
    let plus = Bits(0);
    let minus = Bits(0x8000_0000);
    assert_eq!(rt; figures(&[plus, minus]), Some((minus, plus, 0)));
}

#[test]
fn one_value_more(rt: HostRuntime) {
    let mut min = None;
    let mut max = None;
    for v in [NAN, TWO, ONE, LOW_NAN] {
        update_min::<Float, FloatBits>(&v, &mut min);
        update_max::<Float, FloatBits>(&v, &mut max);
    }
    assert_eq!(rt; min, Some(ONE));
    assert_eq!(rt; max, Some(TWO));
}

#[test]
fn integers(rt: HostRuntime) -> Result<(), Fail> {
    let f = get_min_max::<Int32, i32>(&[3, -7, 12, -7, 12]).ok_or("five values have figures")?;
    assert_eq!(rt; (f.min, f.max, f.nan_count), (-7, 12, 0));
    Ok(())
}

// A number with a mark that its bytes do not show, so that equal values can be told apart.
#[derive(Clone, Copy)]
struct Marked {
    value: i32,
    mark: u8,
}

impl ValueOf<Int32> for Marked {
    ghost bytes = { λ v. four (of_z w32 v.value) };

    fn as_bytes<'a>(&'a self, room: &'a mut [u8; 8]) -> &'a [u8] {
        self.value.lend(room)
    }
}

fn with_mark(value: i32, mark: u8) -> Marked {
    Marked { value, mark }
}

#[test]
fn first_of_equals(rt: HostRuntime) -> Result<(), Fail> {
    let f = get_min_max::<Int32, Marked>(&[
        with_mark(4, 1),
        with_mark(2, 2),
        with_mark(4, 3),
        with_mark(2, 4),
    ])
    .ok_or("four values have figures")?;
    assert_eq!(rt; (f.min.mark, f.max.mark), (2, 1));
    Ok(())
}
