//! A store of the nodes of layered decision diagrams, each kept once. An id names a set of words; ids of one layer are
//! equal exactly where their sets are, and an id keeps its set while the store grows. The size of a set is the number
//! of nodes of its smallest diagram.
#![tactic(auto)]

mod children;
mod id;
pub mod laws;
mod layer;
mod places;
mod size;
mod store;
mod table;

pub use children::{Children, MOST_CHILDREN};
pub use id::{Id, Node};
pub use places::number;
pub use store::Store;
