// A chunk of readings and the chunk that is rebuilt from what was read of its pages: both are played by one call, and their
// records compared.

#![tactic(auto)]

mod calls;
mod rebuilding;
mod unbuilt;

pub use rebuilding::{COLUMN, Rebuilding, rebuild};
pub use unbuilt::Unbuilt;
