//! Where a node stands.

/// A layer and a node of it, both counted from 0.
#[derive(Clone, Copy, Debug, PartialEq, Eq)]
pub(crate) struct Place {
    pub layer: u32,
    pub node: u32,
}
