// How much of an index is kept: offsets alone, or bounds and counts of every page too.
#[derive(Clone, Copy, PartialEq, Eq, Debug)]
pub enum Mode {
    Chunk,
    Page,
}

// How a chunk is written, besides its two coders.
// Version, limits and cut are plain numbers, since a call must refuse wrong ones.
#[derive(Clone, Copy, PartialEq, Eq, Debug)]
pub struct Settings {
    // of the data page, 1 or 2
    pub version: u8,
    // a page of so many rows is due
    pub row_limit: usize,
    // a page of so many plain bytes is due
    pub size_limit: usize,
    pub mode: Mode,
    // bounds are cut to this length
    pub cut_length: Option<usize>,
}
