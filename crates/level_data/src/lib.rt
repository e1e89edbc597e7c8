// A batch's levels as they come: absent, a list that is borrowed, or one value with a count.
// Every question is answered over one meaning, the list of levels that the three cases stand for.

#![tactic(auto)]

#[cfg(test)]
mod cases;
mod levels_ref;

pub use levels_ref::LevelDataRef;
