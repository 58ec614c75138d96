//! The rules of a product.

use pc_base::Sequence;
use sqlite_items::{Boxed, Items};

/// What a rule demands of a product.
#[derive(Debug, Drop)]
pub enum Rule {
    /// The product takes this value at this variable.
    Is {
        variable: u32,
        value: u32,
    },
    /// The product doesn't take this value at this variable.
    IsNot {
        variable: u32,
        value: u32,
    },
    /// The product takes one of these values at this variable.
    OneOf {
        variable: u32,
        values: Sequence<u32>,
    },
    /// The rule doesn't hold.
    Not(Boxed<Rule>),
    /// All hold.
    And(Items<Rule>),
    /// At least one holds.
    Or(Items<Rule>),
    /// The first doesn't hold, or the second holds.
    Implies(Boxed<Rule>, Boxed<Rule>),
    /// The values at the two variables have equal names.
    Same(u32, u32),
    /// At most so many of the members hold.
    AtMost {
        most: u32,
        members: Items<Rule>,
    },
    /// Some row has the values of the product at these variables.
    Table {
        variables: Sequence<u32>,
        rows: Sequence<Sequence<u32>>,
    },
}
