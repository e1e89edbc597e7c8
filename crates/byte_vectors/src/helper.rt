use kinds::Kind;
use std::process::Abort;

// Checks both bounds of a value: the lower one is cut exactly if it is shorter, and the upper one is absent where the
// value stays whole.
pub(crate) fn bounds<K: Kind>(
    rt: &impl Abort,
    value: &[u8],
    length: usize,
    lower: &[u8],
    upper: Option<&[u8]>,
) {
    let (n, cut) = K::truncate_min_value(value, length);
    assert!(rt; value.get(..n) == Some(lower));
    assert!(rt; cut == (lower.len() < value.len()));
    let mut room = [0; 128];
    assert!(rt; value.len() <= room.len());
    let copy = &mut room[..value.len()];
    copy.copy_from_slice(value);
    let (n, cut) = K::truncate_max_value(copy, length);
    assert!(rt; copy.get(..n) == Some(upper.unwrap_or(value)));
    assert!(rt; cut == upper.is_some());
}

// Checks that a is greater than b, and not the other way round.
pub(crate) fn greater<K: Kind>(rt: &impl Abort, a: &[u8], b: &[u8]) {
    assert!(rt; K::compare_greater(a, b));
    assert!(rt; !K::compare_greater(b, a));
}

// Checks that neither is greater.
pub(crate) fn level<K: Kind>(rt: &impl Abort, a: &[u8], b: &[u8]) {
    assert!(rt; !K::compare_greater(a, b));
    assert!(rt; !K::compare_greater(b, a));
}
