// Vectors for the kinds of byte strings: a few worked examples computed over the definitions, and tests
// that run the code on examples from the format's and the Unicode standard's texts.

#![tactic(auto)]

#[cfg(test)]
mod byte_cuts;
#[cfg(test)]
mod decimal_order;
mod examples;
#[cfg(test)]
mod helper;
#[cfg(test)]
mod text_cuts;
#[cfg(test)]
mod values;

pub use examples::examples_stand;
