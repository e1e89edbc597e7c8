// Outside vectors for kinds and figures, run against the proved code: little-endian forms, rising chains of
// floating-point patterns, lists with NaN at each place, ties, and plain bytes.

#![tactic(auto)]

#[cfg(test)]
mod figures_of;
#[cfg(test)]
mod numbers;
#[cfg(test)]
mod plain_bytes;
