use crate::expect::{reads, reads_none};
use crate::level_trip::levels_again;

// With anything behind the bytes, the levels come back, and the list keeps its rest.
#[test]
fn levels_back(rt: HostRuntime) {
    assert!(rt;
        reads::<levels::Packed>(
            &[0x03, 0x88, 0xC6, 0xFA, 0xFF],
            4,
            3,
            &[0, 1, 2, 3, 4, 5, 6, 7],
        )
    );
    assert!(rt; reads::<levels::Packed>(&[0x03, 0x6D, 0x01, 0x00], 4, 3, &[5, 5, 5]));
    assert!(rt; reads::<levels::Packed>(&[0x03, 0xFF], 1, 0, &[0, 0, 0]));
    assert!(rt;
        reads::<levels::Legacy>(&[0x05, 0x39, 0x77, 0xFF], 3, 3, &[0, 1, 2, 3, 4, 5, 6, 7])
    );
    assert!(rt; reads::<levels::Legacy>(&[0xFF, 0xF0], 2, 4, &[15, 15, 15]));
    assert!(rt; reads::<levels::Legacy>(&[], 0, 0, &[0, 0, 0]));
}

// A set bit behind the levels: no coder writes it.
#[test]
fn fill_not_zero(rt: HostRuntime) {
    assert!(rt; reads_none::<levels::Packed>(&[0x03, 0x02], 1, 1));
    assert!(rt; reads_none::<levels::Packed>(&[0x03, 0x6D, 0x03, 0x00], 3, 3));
    assert!(rt; reads_none::<levels::Packed>(&[0x03, 0x6D, 0x01, 0x80], 3, 3));
    assert!(rt; reads_none::<levels::Legacy>(&[0x40], 1, 1));
    assert!(rt; reads_none::<levels::Legacy>(&[0xB6, 0x81], 3, 3));
}

// Another header: more groups, a run of one value, a longer ULEB128 of the same number.
#[test]
fn other_headers(rt: HostRuntime) {
    assert!(rt; reads_none::<levels::Packed>(&[0x05, 0x01, 0x00], 1, 1));
    assert!(rt; reads_none::<levels::Packed>(&[0x02, 0x01], 1, 1));
    assert!(rt; reads_none::<levels::Packed>(&[0x83, 0x00, 0x01], 1, 1));
}

// A byte too few, a list too short for the levels, a width above 4, too many levels.
#[test]
fn too_much(rt: HostRuntime) {
    assert!(rt; reads_none::<levels::Packed>(&[0x03, 0x88, 0xC6], 8, 3));
    assert!(rt; reads_none::<levels::Packed>(&[], 0, 3));
    assert!(rt; reads_none::<levels::Packed>(&[0x07, 0, 0, 0], 17, 1));
    assert!(rt; reads_none::<levels::Legacy>(&[0x05, 0x39], 8, 3));
    assert!(rt; reads_none::<levels::Legacy>(&[0, 0, 0], 17, 1));
    assert!(rt; reads_none::<levels::Legacy>(&[0], 1, 5));
}

#[test]
fn again(rt: HostRuntime) {
    let mut bytes = [9; 516];
    let mut back = [9; 1025];
    assert!(rt; levels_again::<levels::Packed>(&[11; 1024], 4, &mut bytes, &mut back) == Some(514));
    assert!(rt; back[0] == 11 && back[1023] == 11 && back[1024] == 9 && bytes[514] == 9);
    assert!(rt; levels_again::<levels::Legacy>(&[6; 1001], 3, &mut bytes, &mut back) == Some(376));
    assert!(rt; back[0] == 6 && back[1000] == 6 && back[1001] == 11);
}
