use crate::helper::buffer;
use byte_kinds::ByteArray;
use entries::StoredBound;
use std::process::Abort;

// Checks both bounds of a value, or of none.
fn bounds(
    rt: &impl Abort,
    value: Option<&[u8]>,
    cut: Option<usize>,
    lower: &[u8],
    upper: &[u8],
    is_cut: bool,
) {
    let low = StoredBound::lower::<ByteArray>(cut, &value.map(buffer));
    assert!(rt; low.bytes.as_slice() == lower);
    assert_eq!(rt; low.is_cut, is_cut);
    let high = StoredBound::upper::<ByteArray>(cut, &value.map(buffer));
    assert!(rt; high.bytes.as_slice() == upper);
    assert_eq!(rt; high.is_cut, is_cut);
}

#[test]
fn cut_at_2(rt: HostRuntime) {
    bounds(
        &rt,
        Some(&[0x61, 0xFF, 0xFF]),
        Some(2),
        &[0x61, 0xFF],
        &[0x62, 0x00],
        true,
    );
    bounds(&rt, Some(&[0x62]), Some(2), &[0x62], &[0x62], false);
}

#[test]
fn whole_without_a_cut(rt: HostRuntime) {
    bounds(
        &rt,
        Some(&[0x61, 0xFF, 0xFF]),
        None,
        &[0x61, 0xFF, 0xFF],
        &[0x61, 0xFF, 0xFF],
        false,
    );
}

#[test]
fn empty_without_a_value(rt: HostRuntime) {
    bounds(&rt, None, Some(2), &[], &[], false);
    bounds(&rt, None, None, &[], &[], false);
}
