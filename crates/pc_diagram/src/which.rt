//! Which of the two costs is meant.

/// The first or the second cost.
#[derive(Clone, Copy, Debug, PartialEq, Eq)]
pub enum Which {
    First,
    Second,
}
