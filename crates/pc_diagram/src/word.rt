//! A word: what is taken of each variable.

use pc_base::Sequence;

/// The positions of the values taken, one per variable in order, each counted from 0.
pub type Word = Sequence<u32>;
