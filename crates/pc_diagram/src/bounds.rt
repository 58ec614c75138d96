//! Bounds on the two costs.

ghost use Rattle.std.specs.Prelude.{◌≡◌};
ghost use Rattle.pc_diagram.specs.Bounds.{bound_on, no_bounds, with_bound_on};

use crate::which::Which;

/// The most that a word may cost, where set: its first cost, its second cost, or both.
#[derive(Clone, Copy, Debug, PartialEq, Eq)]
pub struct Bounds {
    pub first: Option<i64>,
    pub second: Option<i64>,
}

impl Bounds {
    /// Neither bound is set.
    pub fn none() -> Bounds
        ensures { result ≡ no_bounds }
    {
        Bounds {
            first: None,
            second: None,
        }
    }

    /// The bound on one of the costs, if it is set.
    pub fn on(&self, which: Which) -> Option<i64>
        ensures { result ≡ bound_on which self.now }
    {
        match which {
            Which::First => self.first,
            Which::Second => self.second,
        }
    }

    /// With this bound on one of the costs, or without one. The other stays.
    pub fn with(&self, which: Which, bound: Option<i64>) -> Bounds
        ensures { result ≡ with_bound_on which bound self.now }
    {
        match which {
            Which::First => Bounds {
                first: bound,
                second: self.second,
            },
            Which::Second => Bounds {
                first: self.first,
                second: bound,
            },
        }
    }
}
