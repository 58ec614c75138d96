//! An edge into a node.

/// An edge into a node, seen from the end that fronts begin at: the node that it comes from, and its value.
#[derive(Clone, Copy, Debug, PartialEq, Eq)]
pub(crate) struct Arrival {
    pub node: u32,
    pub value: u32,
}
