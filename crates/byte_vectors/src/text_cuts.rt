use crate::helper::*;
use byte_kinds::Utf8String;
use texts::{is_utf8, lead_length};

#[test]
fn lead_bytes(rt: HostRuntime) {
    let lengths = [
        (0x00, 1),
        (0x7F, 1),
        (0x80, 0),
        (0xC1, 0),
        (0xC2, 2),
        (0xDF, 2),
        (0xE0, 3),
        (0xEF, 3),
        (0xF0, 4),
        (0xF4, 4),
        (0xF5, 0),
        (0xFF, 0),
    ];
    assert!(rt;
        lengths
            .iter()
            .all(|(byte, length)| lead_length(*byte) == *length)
    );
}

#[test]
fn well_formed(rt: HostRuntime) {
    let texts: [&[u8]; 11] = [
        &[],
        &[0x00],
        &[0x7F],
        &[0xC2, 0x80],
        &[0xDF, 0xBF],
        &[0xE0, 0xA0, 0x80],
        &[0xED, 0x9F, 0xBF],
        &[0xEE, 0x80, 0x80],
        &[0xF0, 0x90, 0x80, 0x80],
        &[0xF4, 0x8F, 0xBF, 0xBF],
        &[
            0x61, 0xC3, 0xA9, 0xE2, 0x82, 0xAC, 0xF0, 0x9F, 0x98, 0x80, 0x7A,
        ],
    ];
    assert!(rt; texts.iter().all(|bytes| is_utf8(*bytes)));
}

#[test]
fn ill_formed(rt: HostRuntime) {
    let others: [&[u8]; 13] = [
        &[0x80],
        &[0x61, 0xBF],
        &[0xC0, 0xAF],
        &[0xC1, 0xBF],
        &[0xE0, 0x9F, 0xBF],
        &[0xED, 0xA0, 0x80],
        &[0xF0, 0x8F, 0xBF, 0xBF],
        &[0xF4, 0x90, 0x80, 0x80],
        &[0xF5, 0x80, 0x80, 0x80],
        &[0xE2, 0x82],
        &[0xC2],
        &[0xE2, 0x82, 0x7A],
        &[0xF0, 0x9F, 0x98, 0xC0],
    ];
    assert!(rt; !others.iter().any(|bytes| is_utf8(*bytes)));
}

#[test]
fn cut_between_characters(rt: HostRuntime) {
    bounds::<Utf8String>(&rt, &[0x61, 0xC3, 0xA9, 0x7A], 2, &[0x61], Some(&[0x62]));
    bounds::<Utf8String>(
        &rt,
        &[0x61, 0xC3, 0xA9, 0x7A],
        3,
        &[0x61, 0xC3, 0xA9],
        Some(&[0x61, 0xC3, 0xAA]),
    );
    bounds::<Utf8String>(&rt, &[0x61, 0xE2, 0x82, 0xAC], 3, &[0x61], Some(&[0x62]));
    bounds::<Utf8String>(
        &rt,
        &[0xC3, 0xBF, 0x7A],
        2,
        &[0xC3, 0xBF],
        Some(&[0xC4, 0x80]),
    );
}

#[test]
fn no_character_fits(rt: HostRuntime) {
    bounds::<Utf8String>(
        &rt,
        &[0xE2, 0x82, 0xAC, 0x7A],
        2,
        &[0xE2, 0x82, 0xAC, 0x7A],
        None,
    );
    bounds::<Utf8String>(&rt, &[0x61], 0, &[0x61], None);
}

#[test]
fn without_successor(rt: HostRuntime) {
    bounds::<Utf8String>(&rt, &[0x7F, 0x7A], 1, &[0x7F], None);
    bounds::<Utf8String>(&rt, &[0xDF, 0xBF, 0x7A], 2, &[0xDF, 0xBF], None);
    bounds::<Utf8String>(&rt, &[0xED, 0x9F, 0xBF, 0x7A], 3, &[0xED, 0x9F, 0xBF], None);
    bounds::<Utf8String>(&rt, &[0xEF, 0xBF, 0xBF, 0x7A], 3, &[0xEF, 0xBF, 0xBF], None);
    bounds::<Utf8String>(
        &rt,
        &[0xF4, 0x8F, 0xBF, 0xBF, 0x7A],
        4,
        &[0xF4, 0x8F, 0xBF, 0xBF],
        None,
    );
}

// The last characters of a row of the encoding, whose successor is the first of the next row.
#[test]
fn successor_in_the_next_row(rt: HostRuntime) {
    bounds::<Utf8String>(
        &rt,
        &[0xC2, 0xBF, 0x7A],
        2,
        &[0xC2, 0xBF],
        Some(&[0xC3, 0x80]),
    );
    bounds::<Utf8String>(
        &rt,
        &[0xE0, 0xBF, 0xBF, 0x7A],
        3,
        &[0xE0, 0xBF, 0xBF],
        Some(&[0xE1, 0x80, 0x80]),
    );
    bounds::<Utf8String>(
        &rt,
        &[0xEF, 0xBF, 0xBE, 0x7A],
        3,
        &[0xEF, 0xBF, 0xBE],
        Some(&[0xEF, 0xBF, 0xBF]),
    );
    bounds::<Utf8String>(
        &rt,
        &[0xF0, 0x9F, 0xBF, 0xBF, 0x7A],
        4,
        &[0xF0, 0x9F, 0xBF, 0xBF],
        Some(&[0xF0, 0xA0, 0x80, 0x80]),
    );
}

// Twenty-two characters of three bytes each: 64 bytes end inside the last of them.
#[test]
fn longest_cut(rt: HostRuntime) {
    bounds::<Utf8String>(
        &rt,
        "€€€€€€€€€€€€€€€€€€€€€€".as_bytes(),
        64,
        "€€€€€€€€€€€€€€€€€€€€€".as_bytes(),
        Some("€€€€€€€€€€€€€€€€€€€€₭".as_bytes()),
    );
}

#[test]
fn earlier_character_raised(rt: HostRuntime) {
    bounds::<Utf8String>(&rt, &[0x61, 0x7F, 0x7A], 2, &[0x61, 0x7F], Some(&[0x62]));
    bounds::<Utf8String>(
        &rt,
        &[0x61, 0xED, 0x9F, 0xBF, 0x7F, 0x7A],
        5,
        &[0x61, 0xED, 0x9F, 0xBF, 0x7F],
        Some(&[0x62]),
    );
}

#[test]
fn other_strings_as_bytes(rt: HostRuntime) {
    bounds::<Utf8String>(
        &rt,
        &[0x61, 0x80, 0x62],
        2,
        &[0x61, 0x80],
        Some(&[0x61, 0x81]),
    );
    bounds::<Utf8String>(&rt, &[0xE2, 0x82], 1, &[0xE2], Some(&[0xE3]));
    bounds::<Utf8String>(
        &rt,
        &[0xED, 0xA0, 0x80, 0x62],
        3,
        &[0xED, 0xA0, 0x80],
        Some(&[0xED, 0xA0, 0x81]),
    );
    bounds::<Utf8String>(&rt, &[0xFF, 0xFF, 0xFF], 2, &[0xFF, 0xFF], None);
}

#[test]
fn lengths(rt: HostRuntime) {
    bounds::<Utf8String>(&rt, &[], 1, &[], None);
    bounds::<Utf8String>(&rt, &[0x61, 0x62], 2, &[0x61, 0x62], None);
    bounds::<Utf8String>(
        &rt,
        &[0x61, 0x62, 0x63],
        2,
        &[0x61, 0x62],
        Some(&[0x61, 0x63]),
    );
    bounds::<Utf8String>(&rt, &[0xFF, 0x62], 64, &[0xFF, 0x62], None);
}
