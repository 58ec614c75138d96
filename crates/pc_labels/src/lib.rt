//! Labels of the nodes of a decision diagram, from either end: of each node the cheapest path that agrees with choices, and of
//! several such paths the one that comes first. `heads` and `tails` make them in one pass over the slots;
//! `Labels::heads_again` and `Labels::tails_again` bring them forward when a choice changes.
#![tactic(auto)]

mod from_end;
mod from_root;
mod label;
mod labels;
pub mod laws;
mod layer;
mod ranks;
mod shared_layer;
mod slots;
mod step;

pub use label::Label;
pub use labels::{Labels, heads, tails};
