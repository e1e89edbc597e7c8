ghost use Rattle.std.specs.Prelude.{◌≡◌};
ghost use Rattle.kinds.specs.Cuts.{Cuts, CutBelow, CutAbove};
ghost use Rattle.kinds.specs.Orders.{Order};

// What byte strings stand for: how they are compared and cut, whatever their physical type.
pub trait Content: Copy {
    // The order of values as clauses see it, and how values are cut under it.
    ghost order: { Order };

    ghost cuts: { Cuts order };

    // Whether a is greater than b.
    fn compare_greater(a: &[u8], b: &[u8]) -> bool
        ensures { result ≡ order.greater a.now b.now };

    // The lower bound of a value at the length: how long a front of it, and whether that cuts it. A pair, as every kind's cuts
    // answer.
    fn truncate_min_value(value: &[u8], length: usize) -> (usize, bool)
        ensures { CutBelow (cuts.lower length value.now) value.now result };

    // Puts the upper bound of a value at the length in its place, and answers its length and whether it was cut.
    fn truncate_max_value(value: &mut [u8], length: usize) -> (usize, bool)
        ensures { CutAbove (cuts.upper length value.old) value.old value.new result };
}
