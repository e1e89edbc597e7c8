use floats::DoubleBits;
use release::Row;
use std::alloc::{AllocError, Global};
use std::collections::BTreeMap;

// The day's readings of each vat, in their order, where a missing one has no hold temperature.
pub type Day = BTreeMap<String, Vec<Option<DoubleBits>>>;

pub fn add(heap: Global, day: &mut Day, row: Row) -> Result<(), AllocError> {
    let holds = day
        .entry(String::from_str(heap, row.vat)?)?
        .or_insert(Vec::new(heap));
    holds.push(row.hold)?;
    Ok(())
}
