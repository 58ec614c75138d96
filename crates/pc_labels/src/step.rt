//! Steps back along a path.

/// The node of the neighbouring layer from which a path comes, and the value that it takes on the way, both by their
/// positions.
#[derive(Clone, Copy, Debug, PartialEq, Eq)]
pub(crate) struct Step {
    pub(crate) node: u32,
    pub(crate) value: u32,
}
