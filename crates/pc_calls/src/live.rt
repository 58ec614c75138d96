//! Versions that are live.

use pc_base::Sequence;

/// A live version, and the number of open sessions that are at it.
#[derive(Clone, Copy, Debug, PartialEq, Eq)]
pub struct Live {
    pub version: u64,
    pub pins: u64,
}

/// Live versions in rising order.
pub type LiveList = Sequence<Live>;
