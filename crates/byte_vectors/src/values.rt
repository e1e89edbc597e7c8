use byte_kinds::{
    ByteArray, DecimalByteArray, DecimalFixedLenByteArray, FixedLenByteArray, Utf8String,
};
use figures::get_min_max;
use kinds::{Kind, ValueOf, admits_width, plain_size};
use std::test::Fail;

#[test]
fn descriptors(rt: HostRuntime) {
    assert!(rt; numbers::<ByteArray>() == (8, 6));
    assert!(rt; numbers::<FixedLenByteArray>() == (9, 7));
    assert!(rt; numbers::<Utf8String>() == (10, 6));
    assert!(rt; numbers::<DecimalByteArray>() == (11, 6));
    assert!(rt; numbers::<DecimalFixedLenByteArray>() == (12, 7));
}

// The kind's own number, and that of its physical type.
fn numbers<K: Kind>() -> (u8, u8) {
    let descriptor = K::descriptor();
    (descriptor.number, descriptor.physical_type.number())
}

#[test]
fn widths(rt: HostRuntime) {
    assert!(rt; admits_width::<ByteArray>(0) && !admits_width::<ByteArray>(1));
    assert!(rt; admits_width::<FixedLenByteArray>(1) && admits_width::<FixedLenByteArray>(128));
    assert!(rt;
        !admits_width::<FixedLenByteArray>(0) && !admits_width::<DecimalFixedLenByteArray>(129)
    );
}

// A value of wrong length can be given, and has no plain bytes.
#[test]
fn wrong_lengths(rt: HostRuntime) {
    assert!(rt; !is_sized(3, &[0x61, 0x62]) && is_sized(2, &[0x61, 0x62]));
    assert!(rt; is_sized(0, &[0x61, 0x62]) && !is_sized(0, &[0x61; 129]));
}

fn is_sized(width: usize, value: &[u8]) -> bool {
    let mut room = [0u8; 8];
    plain_size(
        width,
        <&'_ [u8] as ValueOf<FixedLenByteArray>>::as_bytes(&value, &mut room),
    )
    .is_some()
}

// Of numbers that are equal though their bytes are not, the first is the smallest and the largest.
#[test]
fn first_of_equal_numbers(rt: HostRuntime) -> Result<(), Fail> {
    let values: [&[u8]; 3] = [&[0x00, 0x05], &[0x05], &[0x00, 0x00, 0x05]];
    let f = get_min_max::<DecimalByteArray, &[u8]>(&values).ok_or("three values have figures")?;
    assert!(rt; f.min == [0x00, 0x05].as_slice() && f.max == [0x00, 0x05].as_slice());
    assert!(rt; f.nan_count == 0);
    let values: [&[u8]; 4] = [&[0x05], &[0x80], &[0xFF, 0x80], &[0x00, 0x05]];
    let f = get_min_max::<DecimalByteArray, &[u8]>(&values).ok_or("four values have figures")?;
    assert!(rt; f.min == [0x80].as_slice() && f.max == [0x05].as_slice());
    Ok(())
}

#[test]
fn unsigned_figures(rt: HostRuntime) -> Result<(), Fail> {
    let values: [&[u8]; 3] = [&[0x7F], &[0x80], &[0x7F, 0x00]];
    let f = get_min_max::<ByteArray, &[u8]>(&values).ok_or("three values have figures")?;
    assert!(rt; f.min == [0x7F].as_slice() && f.max == [0x80].as_slice());
    Ok(())
}
