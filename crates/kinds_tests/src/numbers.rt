use floats::{
    Bits, Double, DoubleBits, Float, Float16, Float16Bits, FloatBits, FloatKind, Floating,
};
use ints::{Int32, Int64, UInt32, UInt64};
use kinds::{Kind, ValueOf, admits_width};
use std::process::Abort;

// From the negative NaN with the greatest payload through infinities, subnormals and both zeros to the positive one.
const FLOATS: [u32; 20] = [
    0xFFFF_FFFF,
    0xFFC0_0000,
    0xFFBF_FFFF,
    0xFF80_0001,
    0xFF80_0000,
    0xFF7F_FFFF,
    0xBF80_0000,
    0x8080_0000,
    0x807F_FFFF,
    0x8000_0001,
    0x8000_0000,
    0x0000_0000,
    0x0000_0001,
    0x007F_FFFF,
    0x0080_0000,
    0x3F80_0000,
    0x7F80_0000,
    0x7F80_0001,
    0x7FC0_0000,
    0x7FFF_FFFF,
];

const DOUBLES: [u64; 20] = [
    0xFFFF_FFFF_FFFF_FFFF,
    0xFFF8_0000_0000_0000,
    0xFFF7_FFFF_FFFF_FFFF,
    0xFFF0_0000_0000_0001,
    0xFFF0_0000_0000_0000,
    0xFFEF_FFFF_FFFF_FFFF,
    0xBFF0_0000_0000_0000,
    0x8010_0000_0000_0000,
    0x800F_FFFF_FFFF_FFFF,
    0x8000_0000_0000_0001,
    0x8000_0000_0000_0000,
    0x0000_0000_0000_0000,
    0x0000_0000_0000_0001,
    0x000F_FFFF_FFFF_FFFF,
    0x0010_0000_0000_0000,
    0x3FF0_0000_0000_0000,
    0x7FF0_0000_0000_0000,
    0x7FF0_0000_0000_0001,
    0x7FF8_0000_0000_0000,
    0x7FFF_FFFF_FFFF_FFFF,
];

const HALVES: [u16; 20] = [
    0xFFFF, 0xFE00, 0xFDFF, 0xFC01, 0xFC00, 0xFBFF, 0xBC00, 0x8400, 0x83FF, 0x8001, 0x8000, 0x0000,
    0x0001, 0x03FF, 0x0400, 0x3C00, 0x7C00, 0x7C01, 0x7E00, 0x7FFF,
];

// Each pattern is greater than the one before it, which is greater neither than it nor than itself.
fn rise<B: Floating>(rt: &impl Abort, patterns: &[B]) {
    for (low, high) in patterns.iter().zip(patterns.iter().skip(1)) {
        let mut low_room = [0; 8];
        let mut high_room = [0; 8];
        let low = low.lend(&mut low_room);
        let high = high.lend(&mut high_room);
        assert!(rt; FloatKind::<B>::compare_greater(high, low));
        assert!(rt; !FloatKind::<B>::compare_greater(low, high));
        assert!(rt; !FloatKind::<B>::compare_greater(low, low));
    }
}

#[test]
fn floats_rise(rt: HostRuntime) {
    rise(&rt, &FLOATS);
}

#[test]
fn doubles_rise(rt: HostRuntime) {
    rise(&rt, &DOUBLES);
}

#[test]
fn halves_rise(rt: HostRuntime) {
    rise(&rt, &HALVES);
}

#[test]
fn nan_is_past_infinity(rt: HostRuntime) {
    assert!(rt;
        Float::is_nan(&[0x01, 0x00, 0x80, 0x7F]) && Float::is_nan(&[0x00, 0x00, 0xC0, 0xFF])
    );
    assert!(rt;
        !Float::is_nan(&[0x00, 0x00, 0x80, 0x7F]) && !Float::is_nan(&[0x00, 0x00, 0x80, 0xFF])
    );
    assert!(rt;
        Double::is_nan(&[1, 0, 0, 0, 0, 0, 0xF0, 0x7F])
            && !Double::is_nan(&[0, 0, 0, 0, 0, 0, 0xF0, 0x7F])
    );
    assert!(rt; Float16::is_nan(&[0x01, 0x7C]) && !Float16::is_nan(&[0x00, 0xFC]));
    assert!(rt; !Int32::is_nan(&[0xFF, 0xFF, 0xFF, 0x7F]));
}

#[test]
fn integers_by_value(rt: HostRuntime) {
    let minus = (-1i32).to_le_bytes();
    let one = 1i32.to_le_bytes();
    assert!(rt; Int32::compare_greater(&one, &minus) && !Int32::compare_greater(&minus, &one));
    assert!(rt; UInt32::compare_greater(&minus, &one) && !UInt32::compare_greater(&one, &minus));
    let least = i64::MIN.to_le_bytes();
    let most = i64::MAX.to_le_bytes();
    assert!(rt; Int64::compare_greater(&most, &least) && UInt64::compare_greater(&least, &most));
}

#[test]
fn little_endian(rt: HostRuntime) {
    let mut room = [0u8; 8];
    assert!(rt; ValueOf::<Int32>::as_bytes(&0x0102_0304i32, &mut room) == [4, 3, 2, 1].as_slice());
    assert!(rt;
        ValueOf::<Int32>::as_bytes(&-2i32, &mut room) == [0xFE, 0xFF, 0xFF, 0xFF].as_slice()
    );
    assert!(rt;
        ValueOf::<UInt32>::as_bytes(&0xFFFF_FFFEu32, &mut room)
            == [0xFE, 0xFF, 0xFF, 0xFF].as_slice()
    );
    assert!(rt;
        ValueOf::<Int64>::as_bytes(&0x0102_0304_0506_0708i64, &mut room)
            == [8, 7, 6, 5, 4, 3, 2, 1].as_slice()
    );
    assert!(rt;
        ValueOf::<UInt64>::as_bytes(&0xFFFF_FFFF_0000_0001u64, &mut room)
            == [1, 0, 0, 0, 0xFF, 0xFF, 0xFF, 0xFF].as_slice()
    );
    let float: FloatBits = Bits(0x7FC0_0001);
    assert!(rt; float.as_bytes(&mut room) == [0x01, 0x00, 0xC0, 0x7F].as_slice());
    let double: DoubleBits = Bits(0x3FF0_0000_0000_0002);
    assert!(rt; double.as_bytes(&mut room) == [2, 0, 0, 0, 0, 0, 0xF0, 0x3F].as_slice());
    let half: Float16Bits = Bits(0x7C01);
    assert!(rt; half.as_bytes(&mut room) == [0x01, 0x7C].as_slice());
}

// The order of numbers reads the bytes of the width, and takes 0 for a missing one.
#[test]
fn numbers_of_another_length(rt: HostRuntime) {
    assert!(rt; Int32::compare_greater(&[1, 0, 0, 0, 0], &[0, 0, 0, 0, 9]));
    assert!(rt;
        !UInt32::compare_greater(&[5], &[5, 0, 0, 0]) && UInt32::compare_greater(&[6], &[5, 0])
    );
    assert!(rt; !Int64::compare_greater(&[], &[0]) && Int64::compare_greater(&[], &[0xFF; 8]));
    assert!(rt; !Float16::is_nan(&[0x7E]) && Float16::is_nan(&[0x00, 0x7E, 0x00]));
}

#[test]
fn widths_of_numbers(rt: HostRuntime) {
    assert!(rt;
        admits_width::<Int32>(4) && !admits_width::<Int32>(0) && !admits_width::<UInt32>(5)
    );
    assert!(rt; admits_width::<UInt64>(8) && !admits_width::<Int64>(7));
    assert!(rt;
        admits_width::<Float>(4) && admits_width::<Double>(8) && admits_width::<Float16>(2)
    );
    assert!(rt; !admits_width::<Float16>(1) && !admits_width::<Double>(4));
}

#[test]
fn numbers_are_never_cut(rt: HostRuntime) {
    let mut value = [1, 2, 3, 4];
    assert!(rt; Int32::truncate_min_value(&value, 1) == (4, false));
    assert!(rt; Float::truncate_max_value(&mut value, 1) == (4, false) && value == [1, 2, 3, 4]);
}

#[test]
fn numbers_of_kinds(rt: HostRuntime) {
    assert!(rt; numbers::<Int32>() == (1, 1, Some(4), false));
    assert!(rt; numbers::<UInt32>() == (2, 1, Some(4), false));
    assert!(rt; numbers::<Int64>() == (3, 2, Some(8), false));
    assert!(rt; numbers::<UInt64>() == (4, 2, Some(8), false));
    assert!(rt; numbers::<Float>() == (5, 4, Some(4), true));
    assert!(rt; numbers::<Double>() == (6, 5, Some(8), true));
    assert!(rt; numbers::<Float16>() == (7, 7, Some(2), true));
}

// The kind's own number, that of its physical type, its width and whether it has NaN.
fn numbers<K: Kind>() -> (u8, u8, Option<usize>, bool) {
    let descriptor = K::descriptor();
    (
        descriptor.number,
        descriptor.physical_type.number(),
        descriptor.width,
        descriptor.has_nan,
    )
}
