//! A conjunction of sets of words, kept as layers of places that change in place. What one more set costs follows the
//! layers between the first and the last variable that it speaks of. The places are at least as many as the nodes of the
//! conjunction's own diagram; where their number doesn't tell enough, it is made again of a store's nodes.
#![tactic(auto)]

mod append;
mod column;
mod conjunction;
mod layer;
mod narrow;
mod pair;
mod reached;
mod stored;

pub use conjunction::Conjunction;
pub use stored::Stored;
