use crate::helper::*;
use byte_kinds::{ByteArray, FixedLenByteArray};

#[test]
fn order(rt: HostRuntime) {
    greater::<ByteArray>(&rt, &[0x80], &[0x7F]);
    greater::<ByteArray>(&rt, &[0x61, 0x00], &[0x61]);
    greater::<ByteArray>(&rt, &[0x62], &[0x61, 0xFF, 0xFF]);
    greater::<ByteArray>(&rt, &[0x00], &[]);
    level::<ByteArray>(&rt, &[], &[]);
    level::<ByteArray>(&rt, &[0x61, 0x62], &[0x61, 0x62]);
    greater::<FixedLenByteArray>(&rt, &[0x00, 0xFF], &[0x00, 0x01]);
}

#[test]
fn cut_to_length(rt: HostRuntime) {
    bounds::<ByteArray>(
        &rt,
        &[0x61, 0xFF, 0xFF, 0x10],
        3,
        &[0x61, 0xFF, 0xFF],
        Some(&[0x62, 0x00, 0x00]),
    );
    bounds::<ByteArray>(&rt, &[0x61, 0xFF, 0x10], 1, &[0x61], Some(&[0x62]));
    bounds::<ByteArray>(
        &rt,
        &[0x00, 0x00, 0x00],
        2,
        &[0x00, 0x00],
        Some(&[0x00, 0x01]),
    );
    bounds::<ByteArray>(
        &rt,
        &[0xFF, 0xFE, 0xFF, 0xFF, 0x01],
        4,
        &[0xFF, 0xFE, 0xFF, 0xFF],
        Some(&[0xFF, 0xFF, 0x00, 0x00]),
    );
    bounds::<FixedLenByteArray>(
        &rt,
        &[0x61, 0xFF, 0xFF, 0x10],
        3,
        &[0x61, 0xFF, 0xFF],
        Some(&[0x62, 0x00, 0x00]),
    );
}

#[test]
fn no_string_reaches(rt: HostRuntime) {
    bounds::<ByteArray>(&rt, &[0xFF, 0xFF, 0xFF], 2, &[0xFF, 0xFF], None);
    bounds::<ByteArray>(&rt, &[0xFF, 0x00], 1, &[0xFF], None);
    bounds::<ByteArray>(&rt, &[0x61], 0, &[], None);
}

#[test]
fn lengths(rt: HostRuntime) {
    bounds::<ByteArray>(&rt, &[], 0, &[], None);
    bounds::<ByteArray>(&rt, &[], 1, &[], None);
    bounds::<ByteArray>(&rt, &[0x61, 0x62, 0x63], 3, &[0x61, 0x62, 0x63], None);
    bounds::<ByteArray>(&rt, &[0x61, 0x62, 0x63], 64, &[0x61, 0x62, 0x63], None);
    bounds::<ByteArray>(
        &rt,
        &[0x61, 0x62, 0x63, 0x64],
        3,
        &[0x61, 0x62, 0x63],
        Some(&[0x61, 0x62, 0x64]),
    );
}

// Cuts at 64, the greatest length that settings have.
#[test]
fn longest_cuts(rt: HostRuntime) {
    bounds::<ByteArray>(&rt, &[0xFF; 128], 64, &[0xFF; 64], None);
    bounds::<ByteArray>(&rt, &[0xFF; 64], 64, &[0xFF; 64], None);
    bounds::<FixedLenByteArray>(&rt, &[0xFF; 65], 64, &[0xFF; 64], None);
    bounds::<ByteArray>(&rt, &[0; 64], 64, &[0; 64], None);
    bounds::<FixedLenByteArray>(
        &rt,
        b"0123456789012345678901234567890123456789012345678901234567890123456789",
        64,
        b"0123456789012345678901234567890123456789012345678901234567890123",
        Some(b"0123456789012345678901234567890123456789012345678901234567890124"),
    );
}
