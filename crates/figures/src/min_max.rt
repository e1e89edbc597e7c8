// The smallest and the largest of some values, and how many of these are NaN.
#[derive(Clone, Copy, PartialEq, Eq, Debug)]
pub struct MinMax<V> {
    pub min: V,
    pub max: V,
    pub nan_count: u64,
}
