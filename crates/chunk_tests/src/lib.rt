// A chunk, run with numbers worked out by hand: every refusal in its order, the limits, and whole chunks byte for byte.

#![tactic(auto)]

#[cfg(test)]
mod batches;
#[cfg(test)]
mod due;
#[cfg(test)]
mod ends;
#[cfg(test)]
mod figure_cases;
#[cfg(test)]
mod flat;
#[cfg(test)]
mod full;
#[cfg(test)]
mod helper;
#[cfg(test)]
mod openings;
#[cfg(test)]
mod reads;
#[cfg(test)]
mod shared;
#[cfg(test)]
mod waits;
#[cfg(test)]
mod whole;
