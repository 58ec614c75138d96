//! The tables of a decision diagram, not checked yet.

use pc_base::Sequence;

/// The tables of a diagram over some variables, whatever they hold.
#[derive(Debug, Drop)]
pub struct RawDiagram {
    /// Per variable, how many values it takes.
    pub domains: Sequence<u32>,

    /// Per layer, how many nodes it has. There is one layer more than variables.
    pub sizes: Sequence<u32>,

    /// Per variable, the edges of its layer: of node 0 by value, then of node 1, and so on. An edge is the number of a
    /// node of the next layer.
    pub edges: Sequence<Sequence<Option<u32>>>,
}
