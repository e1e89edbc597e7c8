use crate::expect::{codes, refuses};
use level_coder::{LevelCoder, bit_width};
use levels::{Legacy, Packed};

// The format's example: the numbers 0 to 7 at width 3.
#[test]
fn zero_to_seven(rt: HostRuntime) {
    assert!(rt; codes::<Packed>(&[0, 1, 2, 3, 4, 5, 6, 7], 3, &[0x03, 0x88, 0xC6, 0xFA]));
    assert!(rt; codes::<Legacy>(&[0, 1, 2, 3, 4, 5, 6, 7], 3, &[0x05, 0x39, 0x77]));
}

#[test]
fn short_lists(rt: HostRuntime) {
    assert!(rt; codes::<Packed>(&[1], 1, &[0x03, 0x01]));
    assert!(rt; codes::<Packed>(&[5, 5, 5], 3, &[0x03, 0x6D, 0x01, 0x00]));
    assert!(rt; codes::<Packed>(&[15; 9], 4, &[0x05, 0xFF, 0xFF, 0xFF, 0xFF, 0x0F, 0, 0, 0]));
    assert!(rt; codes::<Legacy>(&[1], 1, &[0x80]));
    assert!(rt; codes::<Legacy>(&[5, 5, 5], 3, &[0xB6, 0x80]));
    assert!(rt; codes::<Legacy>(&[1; 9], 1, &[0xFF, 0x80]));
}

// Three levels of ones at each width: the rest of the group, or of the byte, is 0.
#[test]
fn fills(rt: HostRuntime) {
    assert!(rt; codes::<Packed>(&[1; 3], 1, &[0x03, 0x07]));
    assert!(rt; codes::<Packed>(&[3; 3], 2, &[0x03, 0x3F, 0]));
    assert!(rt; codes::<Packed>(&[7; 3], 3, &[0x03, 0xFF, 0x01, 0]));
    assert!(rt; codes::<Packed>(&[15; 3], 4, &[0x03, 0xFF, 0x0F, 0, 0]));
    assert!(rt; codes::<Legacy>(&[1; 3], 1, &[0xE0]));
    assert!(rt; codes::<Legacy>(&[3; 3], 2, &[0xFC]));
    assert!(rt; codes::<Legacy>(&[7; 3], 3, &[0xFF, 0x80]));
    assert!(rt; codes::<Legacy>(&[15; 3], 4, &[0xFF, 0xF0]));
}

// Width 0 leaves the header alone, or nothing.
#[test]
fn no_bits(rt: HostRuntime) {
    assert!(rt; codes::<Packed>(&[0; 9], 0, &[0x05]));
    assert!(rt; codes::<Packed>(&[], 3, &[0x01]));
    assert!(rt; codes::<Legacy>(&[0; 9], 0, &[]));
    assert!(rt; codes::<Legacy>(&[], 3, &[]));
}

// A level of too many bits, a width above 4, too many levels, a byte too few.
#[test]
fn refused(rt: HostRuntime) {
    assert!(rt; refuses::<Packed>(&[0, 8], 3, &mut [9; 16]));
    assert!(rt; refuses::<Packed>(&[1], 0, &mut [9; 16]));
    assert!(rt; refuses::<Packed>(&[1], 5, &mut [9; 16]));
    assert!(rt; refuses::<Packed>(&[0; 1025], 0, &mut [9; 16]));
    assert!(rt; refuses::<Packed>(&[1; 9], 3, &mut [9; 6]));
    assert!(rt; refuses::<Legacy>(&[0, 8], 3, &mut [9; 16]));
    assert!(rt; refuses::<Legacy>(&[1], 5, &mut [9; 16]));
    assert!(rt; refuses::<Legacy>(&[1; 9], 3, &mut [9; 3]));
}

// The header grows by a byte at 64 groups.
#[test]
fn headers(rt: HostRuntime) {
    let mut out = [9; 130];
    assert!(rt; Packed::code(&[0; 504], 1, &mut out) == Some(64));
    assert!(rt; out[0] == 0x7F && out[1] == 0 && out[64] == 9);
    assert!(rt; Packed::code(&[1; 505], 1, &mut out) == Some(66));
    assert!(rt; out[0] == 0x81 && out[1] == 0x01 && out[65] == 0x01 && out[66] == 9);
    assert!(rt; Packed::code(&[1; 1024], 1, &mut out) == Some(130));
    assert!(rt; out[0] == 0x81 && out[1] == 0x02 && out[129] == 0xFF);
}

#[test]
fn sizes(rt: HostRuntime) {
    assert!(rt; Packed::size(504, 3) == Some(190));
    assert!(rt; Packed::size(505, 3) == Some(194));
    assert!(rt; Packed::size(1024, 4) == Some(514));
    assert!(rt; Packed::size(5, 0) == Some(1));
    assert!(rt; Packed::size(1025, 1).is_none());
    assert!(rt; Legacy::size(1024, 4) == Some(512));
    assert!(rt; Legacy::size(3, 3) == Some(2));
    assert!(rt; Legacy::size(5, 0) == Some(0));
    assert!(rt; Legacy::size(1, 5).is_none());
}

#[test]
fn widths(rt: HostRuntime) {
    assert!(rt; bit_width(0) == 0 && bit_width(1) == 1);
    assert!(rt; bit_width(2) == 2 && bit_width(3) == 2);
    assert!(rt; bit_width(4) == 3 && bit_width(7) == 3);
    assert!(rt; bit_width(8) == 4 && bit_width(15) == 4);
    assert!(rt; bit_width(16) == 5 && bit_width(255) == 8);
}

#[test]
fn numbers(rt: HostRuntime) {
    assert!(rt; Packed::encoding_number() == 3 && Packed::is_framed() && Packed::in_version_2());
    assert!(rt; Legacy::encoding_number() == 4 && !Legacy::is_framed() && !Legacy::in_version_2());
}
