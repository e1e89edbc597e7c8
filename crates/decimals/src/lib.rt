// Decimals in bytes: which of two is greater, as big-endian two's complement numbers of any length.

#![tactic(auto)]

mod order;

pub use order::compare_greater_byte_array_decimals;
