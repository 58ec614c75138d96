//! What the values cost.

ghost use Rattle.std.specs.Prelude.{◌≡◌};
ghost use Rattle.pc_diagram.specs.Costs.{part, is_cheaper};

use crate::which::Which;
use pc_base::Sequence;

/// A first and a second cost. Of one value each lies from -1,000,000,000 to 1,000,000,000; of a word, which sums
/// up to 64 of them, from -64,000,000,000 to 64,000,000,000.
#[derive(Clone, Copy, Debug, PartialEq, Eq)]
pub struct CostPair {
    pub first: i64,
    pub second: i64,
}

/// Per variable, in order, the costs of each of its values, in order.
pub type Costs = Sequence<Sequence<CostPair>>;

impl CostPair {
    /// The first or the second of the two.
    pub fn part(&self, which: Which) -> i64
        ensures { result ≡ part which self.now }
    {
        match which {
            Which::First => self.first,
            Which::Second => self.second,
        }
    }

    /// Whether this is less by first cost, or equal in that and less by second cost.
    pub fn is_cheaper_than(&self, other: &CostPair) -> bool
        ensures { result ≡ is_cheaper self.now other.now }
    {
        self.first < other.first || self.first == other.first && self.second < other.second
    }
}
