//! What the row of a table asks of each variable.

ghost use Rattle.std.specs.Prelude.{◌≡◌, ◌≤◌, ◌+◌, ◌&&◌, ℕ, List, nat_eq, drop, length, true, IsTrue, IfOk};
ghost use Rattle.pc_file.specs.Rule.{row_fits};
ghost use Rattle.pc_build.specs.Demands.{allows, meets, Spans};

use crate::span::Span;
use pc_base::{NoMemory, Sequence};
use std::alloc::Global;

/// What is asked of a variable: nothing, one value, or several values at once, which no word has.
#[derive(Clone, Copy, Debug)]
pub(crate) enum Demand {
    Any,
    One(u32),
    Never,
}

impl Demand {
    /// Asks for a value too.
    fn with(self, value: u32) -> Demand
        ensures { (taken : ℕ) → allows result taken ≡ (allows self taken && nat_eq taken value) }
    {
        match self {
            Demand::Any => Demand::One(value),
            Demand::One(other) if other == value => self,
            _ => Demand::Never,
        }
    }

    /// Whether nothing is asked.
    pub(crate) fn is_any(self) -> bool
        ensures { IsTrue result → (taken : ℕ) → allows self taken ≡ true }
    {
        match self {
            Demand::Any => true,
            _ => false,
        }
    }

    /// Whether a value is what is asked.
    pub(crate) fn allows(self, value: u32) -> bool
        ensures { result ≡ allows self value }
    {
        match self {
            Demand::Any => true,
            Demand::One(asked) => value == asked,
            Demand::Never => false,
        }
    }
}

/// What a row asks of each of so many variables from a first one on.
pub(crate) fn demands_of(
    alloc: Global,
    span: Span,
    variables: &[u32],
    row: &[u32],
) -> Result<Sequence<Demand>, NoMemory>
    requires { Spans variables.now span }
    ensures { IfOk result (λ demands. (word : List ℕ) → span.first + span.count ≤ length word
        → meets demands (drop span.first word) ≡ row_fits word variables.now row.now) }
{
    let mut demands = vec![in alloc; Demand::Any; span.count as usize]?;
    for (variable, value) in variables.iter().zip(row) {
        let place = (*variable - span.first) as usize;
        demands[place] = demands[place].with(*value);
    }
    Ok(Sequence::from_vec(demands))
}
