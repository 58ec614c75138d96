//! The shape of a diagram's tables.

ghost use Rattle.std.specs.Prelude.{◌≡◌, ◌<◌, ◌+◌, length, sum, take, IsTrue};
ghost use Rattle.pc_diagram.specs.DiagramShape.{has_lists, has_size, has_table, has_shape, misshapen_layer};
ghost use Rattle.pc_diagram.specs.Levels.{level};

use crate::limits::{MOST_NODES, MOST_VALUES, MOST_VARIABLES};
use crate::raw_diagram::RawDiagram;

/// The first layer that hasn't the shape of one: its size, its domain or its table is wrong, or with it there are too
/// many nodes. It is 0 where a number of lists is wrong.
pub(crate) fn misshapen_layer(raw: &RawDiagram) -> Option<u32>
    ensures { result ≡ misshapen_layer raw.now }
{
    if !has_lists(raw) {
        return Some(0);
    }
    let mut nodes = 0;
    for (layer, size) in raw.sizes.as_slice().iter().enumerate() {
        nodes += u64::from(*size);
        if !has_shape(raw, layer, nodes) {
            return Some(layer as u32);
        }
    }
    None
}

/// Whether a layer has the shape of one. So many nodes are in the layers up to it.
fn has_shape(raw: &RawDiagram, layer: usize, nodes: u64) -> bool
    requires lists { IsTrue (has_lists raw.now) }
    requires inside { layer < length raw.now.sizes }
    requires nodes { nodes ≡ sum (take (layer + 1) raw.now.sizes) }
    ensures { result ≡ has_shape raw.now layer }
{
    has_size(raw, layer)
        && nodes <= MOST_NODES
        && (layer == raw.domains.len() || has_table(raw, layer))
}

/// Whether there are 1 to 64 domains, one size more, and as many tables.
fn has_lists(raw: &RawDiagram) -> bool
    ensures { result ≡ has_lists raw.now }
{
    let variables = raw.domains.len();
    0 < variables
        && variables <= MOST_VARIABLES
        && raw.sizes.len() == variables + 1
        && raw.edges.len() == variables
}

/// Whether a layer has the number of nodes that its place asks for: one at both ends, and some between.
fn has_size(raw: &RawDiagram, layer: usize) -> bool
    requires { layer < length raw.now.sizes }
    ensures { result ≡ has_size raw.now layer }
{
    let size = raw.sizes.as_slice()[layer];
    if layer == 0 || layer == raw.domains.len() {
        size == 1
    } else {
        0 < size
    }
}

/// Whether a variable takes 1 to 64 values, and its table has an edge for each node and value.
fn has_table(raw: &RawDiagram, variable: usize) -> bool
    requires domains { variable < length raw.now.domains }
    requires sizes { variable < length raw.now.sizes }
    requires edges { variable < length raw.now.edges }
    ensures { result ≡ has_table (level raw.now variable) }
{
    let domain = raw.domains.as_slice()[variable];
    let size = raw.sizes.as_slice()[variable];
    let table = &raw.edges.as_slice()[variable];
    0 < domain && domain <= MOST_VALUES && table.len() == size as usize * domain as usize
}
