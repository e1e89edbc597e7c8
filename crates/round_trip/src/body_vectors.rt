use crate::body_trip::body_again;
use crate::expect::{body_codes, body_reads, body_refuses};
use bodies::{Plain, Split};
use body_coder::BodyCoder;

// The format's example: three elements of 4 bytes.
#[test]
fn three_elements(rt: HostRuntime) {
    let plain = [
        0xAA, 0xBB, 0xCC, 0xDD, 0x00, 0x11, 0x22, 0x33, 0xA3, 0xB4, 0xC5, 0xD6,
    ];
    let coded = [
        0xAA, 0x00, 0xA3, 0xBB, 0x11, 0xB4, 0xCC, 0x22, 0xC5, 0xDD, 0x33, 0xD6,
    ];
    assert!(rt; body_codes::<Split>(4, &plain, &coded));
    assert!(rt; body_reads::<Split>(4, &coded, &plain));
    assert!(rt; body_codes::<Split>(4, &[1, 2, 3, 4, 5, 6, 7, 8], &[1, 5, 2, 6, 3, 7, 4, 8]));
}

#[test]
fn plain_changes_nothing(rt: HostRuntime) {
    assert!(rt; body_codes::<Plain>(0, &[1, 2, 3], &[1, 2, 3]));
    assert!(rt; body_codes::<Plain>(2, &[4, 5], &[4, 5]));
    assert!(rt; body_reads::<Plain>(0, &[1, 2, 3], &[1, 2, 3]));
}

// A part of a value, bytes of no common width, more than the list holds.
#[test]
fn refused(rt: HostRuntime) {
    assert!(rt; body_refuses::<Plain>(2, &[1, 2, 3]));
    assert!(rt; body_refuses::<Plain>(0, &[1; 17]));
    assert!(rt; body_refuses::<Split>(0, &[1, 2]));
    assert!(rt; body_refuses::<Split>(0, &[]));
    assert!(rt; body_refuses::<Split>(3, &[1; 4]));
    assert!(rt; body_refuses::<Split>(2, &[1; 18]));
}

#[test]
fn again(rt: HostRuntime) {
    let mut coded = [9; 7];
    let mut back = [8; 7];
    assert!(rt; body_again::<Split>(3, &[1, 2, 3, 4, 5, 6], &mut coded, &mut back) == Some(6));
    assert!(rt; coded == [1, 4, 2, 5, 3, 6, 9]);
    assert!(rt; back == [1, 2, 3, 4, 5, 6, 8]);
}

#[test]
fn numbers(rt: HostRuntime) {
    assert!(rt; Plain::encoding_number() == 0 && Plain::admits_byte_array());
    assert!(rt; Split::encoding_number() == 9 && !Split::admits_byte_array());
}
