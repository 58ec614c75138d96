//! What a session loses where it moves to a version that lacks it.

use pc_base::Sequence;
use pc_names::Name;

/// A bound or a choice that was dropped: the name of the cost, or of the variable, in the version before.
#[derive(Clone, Copy, Debug, PartialEq, Eq)]
pub enum Dropped {
    Bound(Name),
    Choice(Name),
}

/// What was dropped, in order: the bounds, then the choices.
pub type DropList = Sequence<Dropped>;
