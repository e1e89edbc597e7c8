use crate::levels_ref::LevelDataRef;

// Whether there are `len` levels, `first` before the others and none behind, `values` of them at level 1.
fn has(d: LevelDataRef, len: usize, first: Option<i16>, values: usize) -> bool {
    d.len() == len
        && d.first() == first
        && d.value_at(len).is_none()
        && d.value_count(9, 1) == values
}

// The same of a slice, if there is one.
fn cut_has(d: LevelDataRef, offset: usize, len: usize, first: Option<i16>, values: usize) -> bool {
    d.slice(offset, len)
        .is_some_and(|s| has(s, len, first, values))
}

#[test]
fn absent(rt: HostRuntime) {
    let d = LevelDataRef::absent();
    assert!(rt; has(d, 0, None, 9));
    assert!(rt; cut_has(d, 5, 0, None, 9));
}

#[test]
fn materialized(rt: HostRuntime) {
    let d = LevelDataRef::Materialized(&[-1, 1, 0, 1, 1]);
    assert!(rt; has(d, 5, Some(-1), 3));
    assert_eq!(rt; d.value_at(2), Some(0));
    assert_eq!(rt; d.value_at(4), Some(1));
    assert_eq!(rt; d.value_count(9, -1), 1);
    assert_eq!(rt; d.value_count(9, 2), 0);
    assert!(rt; cut_has(d, 1, 3, Some(1), 2) && cut_has(d, 5, 0, None, 0));
    assert!(rt; d.slice(3, 3).is_none() && d.slice(6, 0).is_none());
    assert!(rt; d.slice(1, usize::MAX).is_none());
}

#[test]
fn uniform(rt: HostRuntime) {
    let d = LevelDataRef::uniform(1, 3);
    assert!(rt; has(d, 3, Some(1), 3));
    assert!(rt; has(LevelDataRef::uniform(-2, 3), 3, Some(-2), 0));
    assert!(rt; has(LevelDataRef::uniform(1, 0), 0, None, 0));
    assert_eq!(rt; d.value_at(2), Some(1));
    assert!(rt; cut_has(d, 1, 2, Some(1), 2));
    assert!(rt; cut_has(d, 3, 0, None, 0));
    assert!(rt; d.slice(2, 5).is_none());
    assert!(rt; d.slice(2, usize::MAX).is_none());
}
