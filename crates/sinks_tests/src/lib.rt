// The tests of both sinks: the limits of an area, of a table and of a page, and the bytes
// that are written. Beside them a user that is proved once for every sink, from the meaning
// alone, and is run at both: it holds its sink by value, as a column chunk does.

#![tactic(auto)]

#[cfg(test)]
mod both;
#[cfg(test)]
mod held;
#[cfg(test)]
mod packing;
#[cfg(test)]
mod slotting;
#[cfg(test)]
mod spool;
#[cfg(test)]
mod two;
#[cfg(test)]
mod users;
