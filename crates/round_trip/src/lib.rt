// Coding and reading in turn, for any coder: what goes in comes out, whatever the lists held before.
// The format's own vectors are this crate's tests.

#![tactic(auto)]

mod body_trip;
#[cfg(test)]
mod body_vectors;
#[cfg(test)]
mod expect;
mod level_trip;
#[cfg(test)]
mod level_vectors;
#[cfg(test)]
mod read_vectors;

pub use body_trip::body_again;
pub use level_trip::levels_again;
