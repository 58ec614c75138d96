//! The compiler from rules to diagrams. `compile` answers the version of a file, which has the canonical diagram of its
//! products, or says exactly which set on the way is the first that is too large, or that there is no product. The sets
//! of rules are made in a store, part by part, by the definition of when a rule holds, and joined in a conjunction.
#![tactic(auto)]

mod building;
mod chain;
mod compiler;
mod demand;
mod edges;
mod extract;
mod fault;
mod joined;
mod joint;
pub mod laws;
mod named;
mod one_of;
mod over_subrules;
mod parts;
mod products;
mod rests;
mod rules;
mod same;
mod shared_version;
mod span;
mod table;
mod tables;
mod trie;
mod version;

pub use compiler::compile;
pub use fault::BuildFault;
pub use shared_version::SharedVersion;
pub use version::Version;
