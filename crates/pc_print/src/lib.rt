//! The printed form of a rule, written. What is written spells the rule that it was made of, and no other, so it is read
//! as that rule.
#![tactic(auto)]

pub mod laws;
mod names;
mod writer;

pub use writer::push_rule;
