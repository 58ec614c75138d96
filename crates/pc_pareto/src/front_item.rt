//! An item of a front.

ghost use Rattle.std.specs.Prelude.{◌≡◌};
ghost use Rattle.pc_pareto.specs.Front.{is_at_most};
ghost use Rattle.pc_pareto.specs.Items.{pair_of, covers, precedes};

use crate::back::Back;

/// A pair of costs and the step back of the path that has it.
#[derive(Clone, Copy, Debug, PartialEq, Eq)]
pub struct FrontItem {
    pub first: i64,
    pub second: i64,
    pub back: Back,
}

impl FrontItem {
    /// Whether this comes before another: by first cost, then by second cost, then by rank.
    pub(crate) fn precedes(&self, other: &FrontItem) -> bool
        ensures { result ≡ precedes self.now other.now }
    {
        self.first < other.first
            || self.first == other.first
                && (self.second < other.second
                    || self.second == other.second && self.back.rank < other.back.rank)
    }

    /// Whether this makes another needless: its pair is below the other's, or it is equal and the rank is no greater.
    pub(crate) fn covers(&self, other: &FrontItem) -> bool
        ensures { result ≡ covers self.now other.now }
    {
        self.is_at_most(other) && (!other.is_at_most(self) || self.back.rank <= other.back.rank)
    }

    /// Whether neither cost is above the other's.
    fn is_at_most(&self, other: &FrontItem) -> bool
        ensures { result ≡ is_at_most (pair_of self.now) (pair_of other.now) }
    {
        self.first <= other.first && self.second <= other.second
    }
}
