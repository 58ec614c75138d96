//! The step back from an item of a front.

/// Where the path of an item comes from: a node of the neighbouring layer, the value of the edge between, the place of
/// the path's rest in that node's front, and the rank of the path among those of its layer.
#[derive(Clone, Copy, Debug, PartialEq, Eq)]
pub struct Back {
    pub node: u32,
    pub value: u32,
    pub place: u32,
    pub rank: u64,
}
