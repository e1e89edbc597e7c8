use buffers::Buffer;
use ledger::BoundaryOrder;
use metrics::LevelHistogram;

// The order of the pages of a chunk: by their smallest and largest values, and as the format's boundary_order, by what is
// stored.
#[derive(Clone, Copy, PartialEq, Eq, Debug)]
pub struct Order {
    pub ascending: bool,
    pub descending: bool,
    pub boundary: BoundaryOrder,
}

// A chunk's record. A histogram is absent where its maximum is 0, the figures where there is no value, and the order in
// Chunk mode.
#[derive(Clone, Copy, PartialEq, Eq, Debug)]
pub struct Record {
    pub rows: u64,
    pub levels: u64,
    pub nulls: u64,
    // 0 for a kind without NaN
    pub nans: u64,
    pub repetition_level_histogram: Option<LevelHistogram>,
    pub definition_level_histogram: Option<LevelHistogram>,
    pub min: Option<Buffer<128>>,
    pub max: Option<Buffer<128>>,
    // the sum of the page lengths
    pub bytes: u64,
    pub order: Option<Order>,
}
