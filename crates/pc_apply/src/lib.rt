//! Set operations on the sets of a store: in both, in either, not in it, in at most so many. Each answers the id of
//! exactly that set of words; all other ids keep their sets. Two products over the layers do all of them: one of pairs
//! of nodes, and one of lists of sets, in which words may lie in so many.
#![tactic(auto)]

mod build;
mod ends;
mod lists;
mod operations;
mod pair;
mod pair_level;
mod pair_product;
mod plan;
mod quota;
mod quota_level;
mod quota_product;
mod split;
mod states;
mod step;

pub use operations::{and, at_most, not, or};
