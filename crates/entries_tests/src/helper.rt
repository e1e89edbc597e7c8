use buffers::Buffer;
use byte_kinds::ByteArray;
use metrics::PageMetrics;
use pages::Layout;

// A BYTE_ARRAY column that may have nulls.
pub(crate) const LAYOUT: Layout = Layout {
    version: 1,
    max_rep_level: 0,
    max_def_level: 1,
    width: 0,
};

pub(crate) fn buffer(bytes: &[u8]) -> Buffer<128> {
    let mut buffer = Buffer::new();
    // The tests' values fit.
    let _ = buffer.extend(bytes);
    buffer
}

// The counts of a page of such definition levels.
pub(crate) fn counted(defs: &[u8]) -> PageMetrics {
    let mut metrics = PageMetrics::new::<ByteArray>(LAYOUT);
    for def in defs {
        metrics.add_levels(LAYOUT, &[0], &[*def]);
    }
    metrics
}
