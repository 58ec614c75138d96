//! The variables of a product and their values.

use pc_base::Sequence;
use pc_names::Name;

/// A value of a variable, with what it costs.
#[derive(Debug, Drop)]
pub struct Value {
    pub name: Name,
    /// The first cost, from -1,000,000,000 to 1,000,000,000.
    pub first: i64,
    /// The second cost, in the same range; 0 where the file has one cost.
    pub second: i64,
}

/// A part to pick, with the values that it may take, in order.
#[derive(Debug, Drop)]
pub struct Variable {
    pub name: Name,
    pub values: Sequence<Value>,
}
