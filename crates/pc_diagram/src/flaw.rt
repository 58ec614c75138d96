//! What may be wrong with a node.

/// What may be wrong with a node of a layer, in the order in which it is told.
#[derive(Clone, Copy, Debug, PartialEq, Eq)]
pub(crate) enum Flaw {
    /// An edge of it leads to no node.
    EdgeOut,

    /// It has no edge.
    Dead,

    /// No edge leads to it.
    Unreached,

    /// It has the edges of an earlier node.
    Twin,

    /// Another node is met in its turn.
    Order,
}
