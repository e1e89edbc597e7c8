// Worked examples, computed over the definitions that the contracts cite, for a reader who wants to count
// one out by hand.

#![tactic(auto)]

mod examples;

pub use examples::worked_examples;
