//! The rules of a product text. The bytes of a rule are cut into tokens, the tokens are read by the grammar, and its
//! words are looked up in a file. What is read is the rule that the bytes spell, and bytes that spell none are answered
//! by the kind of their first fault.
#![tactic(auto)]

mod checks;
mod count;
mod cursor;
mod fault;
mod forms;
mod grammar;
mod kind;
pub mod laws;
mod lists;
mod naming;
mod phrase;
mod rule_text;
mod token;

pub use fault::RuleFault;
pub use kind::Kind;
pub use rule_text::read_rule;
