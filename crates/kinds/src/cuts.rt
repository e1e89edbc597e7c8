ghost use Rattle.kinds.specs.Cuts.{CutBelow, CutAbove, whole};

// The lower cut of a kind that cuts nothing: the bound is the value, whole.
pub fn truncate_none_min(value: &[u8]) -> (usize, bool)
    ensures { CutBelow (whole value.now) value.now result }
{
    (value.len(), false)
}

// The upper cut of such a kind: the value stays, whole, in its place.
pub fn truncate_none_max(value: &mut [u8]) -> (usize, bool)
    ensures { CutAbove (whole value.old) value.old value.new result }
{
    truncate_none_min(value)
}
