//! What the words of a set go on with.

ghost use Rattle.std.specs.Prelude.{◌≡◌, ◌<◌, Some, length, map, slice_get};

use crate::id::Node;
use pc_diagram::MOST_VALUES;
use std::marker::Model;

/// The most children of a node: one for each value of its variable.
pub const MOST_CHILDREN: usize = MOST_VALUES as usize;

/// What the words of a set go on with: for each value of its layer's variable, in order, a set of the next layer.
#[derive(Debug, Drop)]
pub struct Children<'a> {
    row: &'a [u32],
}

impl<'a> Model for Children<'a> {
    ghost use Rattle.std.specs.Prelude.{List, map};
    ghost use Rattle.pc_store.specs.declared.id.Node.{Node};

    ghost Value = { List Node };

    ghost view = { λ c. map (λ number. record { number = number }) c.row.now };
}

impl<'a> Children<'a> {
    /// The children that a row names.
    pub(crate) fn new(row: &'a [u32]) -> Children<'a>
        ensures { result ≡ map (λ number. record { number = number }) row.now }
    {
        Children { row }
    }

    /// What words go on with after a value.
    pub fn node(&self, value: u32) -> Node
        requires { value < length self.now }
        ensures { slice_get self.now value ≡ Some result }
    {
        Node {
            number: self.row[value as usize],
        }
    }
}
