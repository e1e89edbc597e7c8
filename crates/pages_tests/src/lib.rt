// Pages byte for byte, and read back: worked examples for every pair of coders and both versions.

#![tactic(auto)]

#[cfg(test)]
mod worked;
