// What a chunk is opened with: a column, settings and two coders, and whether they are allowed.

#![tactic(auto)]

mod allowed;
mod column;
mod settings;

pub use allowed::{check, layout};
pub use column::Column;
pub use settings::{Mode, Settings};
