// Entries of the page index: where each page lies and, if wanted, its bounds and counts.

#![tactic(auto)]

mod bound;
mod entry;
mod marks;
mod table;

pub use bound::StoredBound;
pub use entry::Entry;
pub use marks::Marks;
pub use table::EntryTable;
