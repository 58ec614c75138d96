//! Fronts of pairs of costs: of all the words that lead to a node of a decision diagram, or from it, the pairs that no
//! other pair beats in both costs. A node has exactly the front of the pairs of its words; a front that grows too large
//! is refused exactly at its limit.
#![tactic(auto)]

mod arrival;
mod arrivals;
mod back;
mod front;
mod front_fault;
mod front_item;
mod fronts;
mod kept;
pub mod laws;
mod limits;
mod number;
mod pass;
mod path;
mod run;
mod stage;
mod sweep;

pub use back::Back;
pub use front::Front;
pub use front_fault::FrontFault;
pub use front_item::FrontItem;
pub use fronts::{Fronts, front_heads, front_tails};
