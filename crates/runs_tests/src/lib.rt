// Two chunks of one column, run by one call, with numbers worked out by hand: answers, records, entries, and what is left
// in sinks and scratch.

#![tactic(auto)]

#[cfg(test)]
mod helper;
#[cfg(test)]
mod rebuilt;
#[cfg(test)]
mod unclosed;
#[cfg(test)]
mod waits;
