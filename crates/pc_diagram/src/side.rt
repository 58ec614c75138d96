//! Which end of a decision diagram is meant.

use std::fmt;

/// The side of the root, where the heads of words begin, or that of the terminal, where their tails end.
#[derive(Clone, Copy, Debug, PartialEq, Eq)]
pub enum Side {
    Heads,
    Tails,
}

impl fmt::Display for Side {
    fn fmt<W: fmt::Write>(&self, f: &mut fmt::Formatter<W>) -> fmt::Result {
        match self {
            Side::Heads => write!(f, "heads"),
            Side::Tails => write!(f, "tails"),
        }
    }
}
