// Which columns and settings are accepted, and which of two refusals is answered.
use crate::helper::{flat, limits, nested, refusal, says};
use bodies::{Plain, Split};
use body_coder::BodyCoder;
use byte_kinds::{ByteArray, FixedLenByteArray};
use columns::{Column, Settings, check};
use ints::Int32;
use kinds::Kind;
use level_coder::LevelCoder;
use levels::{Legacy, Packed};
use sinks::Layer;
use std::process::Abort;

fn answers<K: Kind, L: LevelCoder, B: BodyCoder>(
    rt: &impl Abort,
    column: Column,
    settings: Settings,
    number: u8,
) {
    let said = if number == 0 {
        None
    } else {
        says(number, Layer::Chunk, 0)
    };
    assert_eq!(rt;
        refusal(check::<K, L, B>(column, settings)),
        said,
        "{column:?} {settings:?}"
    );
}

#[test]
fn columns_in_order(rt: HostRuntime) {
    let good = limits(512, 4096);
    let bad = limits(0, 4096);
    for (width, max_def_level, max_rep_level, number) in [
        (4, 15, 15, 0),
        (4, 0, 0, 0),
        (4, 16, 0, 1),
        (4, 1, 2, 1),
        (4, 0, -1, 1),
        (4, -1, -1, 1),
        (3, 2, 1, 1),
        (0, 2, 1, 1),
    ] {
        let column = Column {
            width,
            max_def_level,
            max_rep_level,
        };
        answers::<Int32, Packed, Plain>(&rt, column, good, number);
        answers::<Int32, Packed, Plain>(&rt, column, bad, if number == 0 { 2 } else { 1 });
    }
}

#[test]
fn numbers_of_the_settings(rt: HostRuntime) {
    for (version, row_limit, size_limit, cut, number) in [
        (1, 1, 1, 1, 0),
        (2, 512, 4096, 64, 0),
        (0, 512, 4096, 64, 2),
        (3, 512, 4096, 64, 2),
        (2, 0, 4096, 64, 2),
        (2, 513, 4096, 64, 2),
        (2, 512, 0, 64, 2),
        (2, 512, 4097, 64, 2),
        (2, 512, 4096, 0, 2),
        (2, 512, 4096, 65, 2),
    ] {
        let settings = Settings {
            version,
            cut_length: Some(cut),
            ..limits(row_limit, size_limit)
        };
        answers::<Int32, Packed, Plain>(&rt, nested(4), settings, number);
    }
}

#[test]
fn coders_by_version_and_width(rt: HostRuntime) {
    let one = limits(512, 4096);
    let two = Settings { version: 2, ..one };
    answers::<Int32, Legacy, Split>(&rt, nested(4), one, 0);
    answers::<Int32, Legacy, Split>(&rt, nested(4), two, 2);
    answers::<Int32, Packed, Split>(&rt, nested(4), two, 0);
    answers::<ByteArray, Packed, Split>(&rt, flat(0), one, 2);
    answers::<ByteArray, Legacy, Plain>(&rt, flat(0), one, 0);
    answers::<ByteArray, Packed, Plain>(&rt, flat(4), one, 1);
    answers::<FixedLenByteArray, Packed, Split>(&rt, flat(128), one, 0);
    answers::<FixedLenByteArray, Packed, Split>(&rt, flat(129), one, 1);
    answers::<FixedLenByteArray, Packed, Plain>(&rt, flat(0), one, 1);
}
