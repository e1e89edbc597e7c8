use crate::helper::{buffer, counted};
use byte_kinds::ByteArray;
use entries::{Marks, StoredBound};

// Whether a bound is these bytes, uncut.
fn holds(bound: StoredBound, bytes: &[u8]) -> bool {
    bound.bytes.as_slice() == bytes && !bound.is_cut
}

#[test]
fn a_page_without_values(rt: HostRuntime) {
    let marks = Marks::new::<ByteArray>(Some(2), &counted(&[0, 0, 0]), &None, &None);
    assert!(rt; marks.null_page);
    assert!(rt; holds(marks.min, b""));
    assert!(rt; holds(marks.max, b""));
    assert_eq!(rt; marks.null_count, 3);
    assert_eq!(rt; marks.nan_count, None);
    assert_eq!(rt; marks.repetition_level_histogram, None);
    assert!(rt;
        marks
            .definition_level_histogram
            .is_some_and(|counts| counts.as_slice() == [3, 0].as_slice())
    );
}

#[test]
fn a_page_with_a_value_and_a_null(rt: HostRuntime) {
    let value = || Some(buffer(b"a"));
    let marks = Marks::new::<ByteArray>(Some(2), &counted(&[1, 0]), &value(), &value());
    assert!(rt; !marks.null_page);
    assert!(rt; holds(marks.min, b"a"));
    assert!(rt; holds(marks.max, b"a"));
    assert_eq!(rt; marks.null_count, 1);
    assert!(rt;
        marks
            .definition_level_histogram
            .is_some_and(|counts| counts.as_slice() == [1, 1].as_slice())
    );
}
