//! What a label tells.

/// The two costs of the cheapest path from one end of a diagram to a node, each from -64,000,000,000 to 64,000,000,000.
#[derive(Clone, Copy, Debug, PartialEq, Eq)]
pub struct Label {
    pub first: i64,
    pub second: i64,
}
