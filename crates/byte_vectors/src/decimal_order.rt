use crate::helper::*;
use byte_kinds::{DecimalByteArray, DecimalFixedLenByteArray};

#[test]
fn unequal_lengths(rt: HostRuntime) {
    greater::<DecimalByteArray>(&rt, &[0x80], &[0xFF, 0x7F]);
    greater::<DecimalByteArray>(&rt, &[0x80], &[0xFE, 0x00]);
    greater::<DecimalByteArray>(&rt, &[0x10], &[0xFF, 0x10]);
    greater::<DecimalByteArray>(&rt, &[0x01, 0x00], &[0x05]);
    greater::<DecimalByteArray>(&rt, &[0x00, 0x80], &[0x7F]);
    greater::<DecimalByteArray>(&rt, &[0xFF, 0xFF, 0xFF], &[0xFE]);
    level::<DecimalByteArray>(&rt, &[0x00, 0x05], &[0x05]);
    level::<DecimalByteArray>(&rt, &[0xFF, 0xFF, 0x80], &[0x80]);
}

#[test]
fn equal_lengths(rt: HostRuntime) {
    greater::<DecimalFixedLenByteArray>(&rt, &[0x7F, 0xFF], &[0x80, 0x00]);
    greater::<DecimalFixedLenByteArray>(&rt, &[0xFF, 0xFF], &[0xFF, 0xFE]);
    greater::<DecimalFixedLenByteArray>(&rt, &[0x00, 0x01], &[0x00, 0x00]);
    greater::<DecimalFixedLenByteArray>(&rt, &[0x00, 0x00], &[0xFF, 0xFF]);
    level::<DecimalFixedLenByteArray>(&rt, &[0x12, 0x34], &[0x12, 0x34]);
}

#[test]
fn empty_is_lowest(rt: HostRuntime) {
    greater::<DecimalByteArray>(&rt, &[0x80, 0x00, 0x00], &[]);
    greater::<DecimalByteArray>(&rt, &[0x00], &[]);
    level::<DecimalByteArray>(&rt, &[], &[]);
}

#[test]
fn never_cut(rt: HostRuntime) {
    bounds::<DecimalByteArray>(&rt, &[0xFF, 0x7F, 0x01], 1, &[0xFF, 0x7F, 0x01], None);
    bounds::<DecimalFixedLenByteArray>(&rt, &[0x12, 0x34], 1, &[0x12, 0x34], None);
}
