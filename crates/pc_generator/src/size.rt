//! How many variables the generator's file has.

ghost use Rattle.std.specs.Prelude.{◌≡◌};
ghost use Rattle.pc_generator.specs.Size.{size_of};

use crate::limits::LEAST_VARIABLES;
use pc_diagram::MOST_VARIABLES;
use std::marker::Model;

/// A number of variables, from 2 to 64, which contracts see as the number.
#[derive(Clone, Copy, Debug, PartialEq, Eq)]
pub struct Size {
    variables: u32,
}

impl Model for Size {
    ghost use Rattle.std.specs.Prelude.{◌≡◌, ℕ, true};
    ghost use Rattle.pc_generator.specs.Size.{is_size};

    ghost Value = { ℕ };

    ghost view = { λ s. s.variables };

    ghost invariant = { λ s. is_size s.variables ≡ true };

    ghost inverse = { λ number. record { variables = number } };
}

impl Size {
    ghost use Rattle.std.specs.Prelude.{◌≤◌};
    ghost use Rattle.pc_diagram.specs.declared.limits.TheConstants.{MOST_VARIABLES};
    ghost use Rattle.pc_generator.specs.declared.limits.TheConstants.{LEAST_VARIABLES};

    /// The size of this number, if it is one.
    pub fn of(number: u64) -> Option<Size>
        ensures { result ≡ size_of number }
    {
        if number >= u64::from(LEAST_VARIABLES) && number <= MOST_VARIABLES as u64 {
            Some(Size {
                variables: number as u32,
            })
        } else {
            None
        }
    }

    /// The number.
    pub fn variables(self) -> u32
        ensures number { result ≡ self }
        ensures least { LEAST_VARIABLES ≤ result }
        ensures most { result ≤ MOST_VARIABLES }
    {
        self.variables
    }
}
