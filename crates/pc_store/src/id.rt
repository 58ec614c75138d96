//! Names of sets of words.

ghost use Rattle.std.specs.Prelude.{◌≡◌, map, OnOk};

use crate::table::Row;
use pc_base::NoMemory;

/// A set of words that a store keeps, from a layer on: each word has a value of every variable from that layer to the
/// last. It says nothing without its store, but for the default, which is the set without words of the first layer.
#[derive(Clone, Copy, Debug, Default, PartialEq, Eq, Hash)]
pub struct Id {
    pub(crate) layer: u32,
    pub(crate) node: u32,
}

/// A set of a layer that is known from elsewhere: an id without its layer, for those who keep many sets of one layer.
#[derive(Clone, Copy, Debug, PartialEq, Eq, Hash)]
pub struct Node {
    pub(crate) number: u32,
}

impl Id {
    ghost use Rattle.std.specs.Prelude.{◌≡◌};
    ghost use Rattle.pc_store.specs.Sets.{layer_of, id_at};

    /// The layer, counted from 0. Past the last variable stands one more layer.
    #[tactic(auto, unfolding(crate::specs::Sets::layer_of))]
    pub fn layer(self) -> u32
        ensures { result ≡ layer_of self }
    {
        self.layer
    }

    /// The set without its layer.
    #[tactic(auto, unfolding(crate::specs::Sets::id_at, crate::specs::Sets::layer_of))]
    pub fn node(self) -> Node
        ensures { self ≡ id_at (layer_of self) result }
    {
        Node { number: self.node }
    }
}

impl Node {
    ghost use Rattle.std.specs.Prelude.{◌≡◌};
    ghost use Rattle.pc_store.specs.Sets.{layer_of, id_at};

    /// The set as one of a layer. It is an id of a store only where it came from an id of that layer.
    #[tactic(auto, unfolding(crate::specs::Sets::id_at, crate::specs::Sets::layer_of))]
    pub fn at(self, layer: u32) -> Id
        ensures id { result ≡ id_at layer self }
        ensures layer { layer_of result ≡ layer }
    {
        Id {
            layer,
            node: self.number,
        }
    }
}

/// Makes a row of the nodes of sets.
pub(crate) fn write_nodes(row: &mut Row, children: &[Id]) -> Result<(), NoMemory>
    ensures { OnOk result (row.new.items ≡ map (λ child. child.node) children.now) }
{
    row.clear();
    for child in children {
        row.push(child.node)?;
    }
    Ok(())
}
