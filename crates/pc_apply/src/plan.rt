//! How one set is got.

use pc_store::Id;

/// How the set of a state is got: it is known, or it is a node whose children are the sets of states of the next layer.
/// Their places are targets, from this one on.
#[derive(Clone, Copy, Debug)]
pub(crate) enum Plan {
    Known(Id),
    Node(u32),
}
