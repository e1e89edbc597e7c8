// How many levels, values and plain bytes a page has.
#[derive(Debug, Clone, Copy, PartialEq, Eq)]
pub struct PageCounts {
    pub levels: usize,
    pub values: usize,
    pub bytes: usize,
}
