// One page's bytes, assembled from levels and plain bytes, and the refusals of the page layer.

#![tactic(auto)]

mod assembly;
mod counts;
mod fault;
mod layout;
mod list;
mod reading;
mod sinking;
mod size;

pub use assembly::assemble;
pub use counts::PageCounts;
pub use fault::PageFault;
pub use layout::Layout;
pub use reading::read_page;
pub use sinking::{takes_page, write_page};
pub use size::page_size;
