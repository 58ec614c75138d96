//! The limit of fronts.

/// The most pairs that the fronts of one side of a diagram may have, all in all.
pub const MOST_LABELS: u64 = 1_048_576;

/// The most that a bound on the ranks of a layer may be, so that the ranks of the next one fit.
pub(crate) const MOST_RANKS: u64 = 72_057_594_037_927_936;
