use bodies::{Plain, Split};
use body_coder::BodyCoder;
use level_coder::LevelCoder;
use levels::{Legacy, Packed};
use pages::{Layout, PageCounts, assemble, page_size, read_page};

const LISTS: Layout = Layout {
    version: 1,
    max_rep_level: 1,
    max_def_level: 2,
    width: 4,
};

const REPS: [u8; 4] = [0, 1, 1, 0];

const DEFS: [u8; 4] = [2, 1, 2, 1];

const FIVE_SEVEN: [u8; 8] = [5, 0, 0, 0, 7, 0, 0, 0];

// Whether a page of two INT32 values is these bytes, has their size, and leaves what is behind it.
fn makes<L: LevelCoder, B: BodyCoder>(layout: Layout, page: &[u8]) -> bool {
    let mut out = [0xEEu8; 40];
    let size = assemble::<L, B>(layout, &REPS, &DEFS, &FIVE_SEVEN, &mut out);
    size == Some(page.len())
        && page_size::<L, B>(layout, 4, 8) == size
        && out.starts_with(page)
        && out.get(page.len()) == Some(&0xEE)
}

// Whether the page reads back as what went in, with the rest of each list as it was.
fn gives<L: LevelCoder, B: BodyCoder>(layout: Layout, page: &[u8]) -> bool {
    let mut reps = [9u8; 5];
    let mut defs = [9u8; 5];
    let mut plain = [9u8; 9];
    let counts = read_page::<L, B>(layout, 4, page, &mut reps, &mut defs, &mut plain);
    let whole = PageCounts {
        levels: 4,
        values: 2,
        bytes: 8,
    };
    counts == Some(whole)
        && reps == [0, 1, 1, 0, 9]
        && defs == [2, 1, 2, 1, 9]
        && plain == [5, 0, 0, 0, 7, 0, 0, 0, 9]
}

#[test]
fn packed_plain_version_1(rt: HostRuntime) {
    let page = [
        2, 0, 0, 0, 3, 6, 3, 0, 0, 0, 3, 0x66, 0, 5, 0, 0, 0, 7, 0, 0, 0,
    ];
    assert!(rt; makes::<Packed, Plain>(LISTS, &page));
    assert!(rt; gives::<Packed, Plain>(LISTS, &page));
}

#[test]
fn packed_split_version_1(rt: HostRuntime) {
    let page = [
        2, 0, 0, 0, 3, 6, 3, 0, 0, 0, 3, 0x66, 0, 5, 7, 0, 0, 0, 0, 0, 0,
    ];
    assert!(rt; makes::<Packed, Split>(LISTS, &page));
    assert!(rt; gives::<Packed, Split>(LISTS, &page));
}

#[test]
fn packed_plain_version_2(rt: HostRuntime) {
    let layout = Layout {
        version: 2,
        ..LISTS
    };
    let page = [3, 6, 3, 0x66, 0, 5, 0, 0, 0, 7, 0, 0, 0];
    assert!(rt; makes::<Packed, Plain>(layout, &page));
    assert!(rt; gives::<Packed, Plain>(layout, &page));
}

#[test]
fn packed_split_version_2(rt: HostRuntime) {
    let layout = Layout {
        version: 2,
        ..LISTS
    };
    let page = [3, 6, 3, 0x66, 0, 5, 7, 0, 0, 0, 0, 0, 0];
    assert!(rt; makes::<Packed, Split>(layout, &page));
    assert!(rt; gives::<Packed, Split>(layout, &page));
}

#[test]
fn legacy_version_1(rt: HostRuntime) {
    let page = [0x60, 0x99, 5, 0, 0, 0, 7, 0, 0, 0];
    assert!(rt; makes::<Legacy, Plain>(LISTS, &page));
    assert!(rt; gives::<Legacy, Plain>(LISTS, &page));
}

#[test]
fn legacy_split_version_1(rt: HostRuntime) {
    let page = [0x60, 0x99, 5, 7, 0, 0, 0, 0, 0, 0];
    assert!(rt; makes::<Legacy, Split>(LISTS, &page));
    assert!(rt; gives::<Legacy, Split>(LISTS, &page));
}

#[test]
fn nulls_only(rt: HostRuntime) {
    let layout = Layout {
        max_rep_level: 0,
        max_def_level: 1,
        ..LISTS
    };
    let mut out = [0xEEu8; 8];
    assert_eq!(rt;
        assemble::<Packed, Plain>(layout, &[], &[0, 0, 0], &[], &mut out),
        Some(6)
    );
    assert_eq!(rt; out, [2, 0, 0, 0, 3, 0, 0xEE, 0xEE]);
    let mut reps = [9u8; 1];
    let mut defs = [9u8; 3];
    let mut plain = [9u8; 1];
    let nulls = PageCounts {
        levels: 3,
        values: 0,
        bytes: 0,
    };
    assert_eq!(rt;
        read_page::<Packed, Plain>(layout, 3, &out[0..6], &mut reps, &mut defs, &mut plain),
        Some(nulls)
    );
    assert!(rt; defs == [0, 0, 0] && reps == [9] && plain == [9]);
}

#[test]
fn largest(rt: HostRuntime) {
    let layout = Layout {
        version: 1,
        max_rep_level: 15,
        max_def_level: 15,
        width: 0,
    };
    let levels = [15u8; 1024];
    let plain = [7u8; 8191];
    let mut out = [0xEEu8; 9228];
    assert_eq!(rt; page_size::<Packed, Plain>(layout, 1024, 8191), Some(9227));
    assert_eq!(rt;
        assemble::<Packed, Plain>(layout, &levels, &levels, &plain, &mut out),
        Some(9227)
    );
    assert!(rt;
        out[0] == 2
            && out[1] == 2
            && out[4] == 0x81
            && out[5] == 2
            && out[9226] == 7
            && out[9227] == 0xEE
    );
}

#[test]
fn refused(rt: HostRuntime) {
    let mut out = [0xEEu8; 20];
    assert_eq!(rt;
        assemble::<Packed, Plain>(LISTS, &REPS, &DEFS, &FIVE_SEVEN, &mut out),
        None
    );
    assert_eq!(rt;
        assemble::<Packed, Plain>(LISTS, &[0, 2], &[2, 2], &[], &mut out),
        None
    );
    assert_eq!(rt;
        assemble::<Packed, Split>(LISTS, &[0], &[2], &[1, 2, 3], &mut out),
        None
    );
    assert_eq!(rt; out, [0xEE; 20]);
    assert_eq!(rt; page_size::<Packed, Plain>(LISTS, 1025, 0), None);
    let bad = [
        2, 0, 0, 0, 3, 6, 4, 0, 0, 0, 3, 0x66, 0, 5, 0, 0, 0, 7, 0, 0, 0,
    ];
    assert!(rt; !gives::<Packed, Plain>(LISTS, &bad));
}
