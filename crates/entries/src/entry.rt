use crate::marks::Marks;

// A page's entry: where it lies, how long it is, how many levels it has, which its bytes do not say, which row it begins
// with, and in Page mode its marks.
#[derive(Clone, Copy, PartialEq, Eq, Debug)]
pub struct Entry {
    pub offset: usize,
    pub size: usize,
    pub levels: usize,
    pub first_row: u64,
    pub marks: Option<Marks>,
}
