// A column of values of one kind.
// Width and maxima are plain numbers, since a call must refuse wrong ones.
#[derive(Clone, Copy, PartialEq, Eq, Debug)]
pub struct Column {
    // bytes of a value, 0 where each has its own length
    pub width: usize,
    pub max_def_level: i16,
    pub max_rep_level: i16,
}
