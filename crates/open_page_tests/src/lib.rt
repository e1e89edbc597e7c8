// The open page, run with worked numbers: a nested batch, repeated levels, limits met exactly, and ties.

#![tactic(auto)]

#[cfg(test)]
mod worked;
