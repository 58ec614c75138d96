//! Why tables are no diagram.

use pc_base::NoMemory;
use thiserror::Error;

/// Why tables are no canonical diagram: the first of six kinds, with the first layer and node at which it stands, by
/// layer and then by node. Both are counted from 0.
#[derive(Clone, Copy, Debug, PartialEq, Eq, Error)]
pub enum DiagramFault {
    /// A number of lists, a domain, a size or the length of a table is wrong, or there are more than 262,144 nodes. The
    /// node is 0, and so is the layer where a number of lists is wrong. For too many nodes it is the layer at which they
    /// become too many.
    #[error("shape {layer} {node}")]
    Shape { layer: u32, node: u32 },

    /// An edge of this node leads to no node of the next layer.
    #[error("edge-out {layer} {node}")]
    EdgeOut { layer: u32, node: u32 },

    /// This node has no edge.
    #[error("dead {layer} {node}")]
    Dead { layer: u32, node: u32 },

    /// No edge leads to this node.
    #[error("unreached {layer} {node}")]
    Unreached { layer: u32, node: u32 },

    /// This node has the edges of an earlier node of its layer.
    #[error("twin {layer} {node}")]
    Twin { layer: u32, node: u32 },

    /// Going through the edges into this layer in order, this node isn't met in its turn.
    #[error("order {layer} {node}")]
    Order { layer: u32, node: u32 },

    #[error("out of memory")]
    NoMemory,
}

impl From<NoMemory> for DiagramFault {
    ghost use Rattle.std.specs.Prelude.{◌≡◌};
    ghost use Rattle.pc_diagram.specs.declared.diagram_fault.DiagramFault.TheVariants.{NoMemory};

    ghost from_gives = { λ _ e. e ≡ NoMemory };

    fn from(_error: pc_base::NoMemory) -> DiagramFault {
        DiagramFault::NoMemory
    }
}
