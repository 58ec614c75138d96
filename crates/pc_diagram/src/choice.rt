//! One choice.

/// A variable and the value chosen for it, both by their positions from 0.
#[derive(Clone, Copy, Debug, PartialEq, Eq)]
pub struct Choice {
    pub variable: u32,
    pub value: u32,
}
