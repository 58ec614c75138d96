//! Examples that the programs of units and of measures share: the bike as a diagram with its costs, variables without rules, and
//! diagrams and costs of plain rows.
#![tactic(auto)]

mod bike;
mod loose;
mod rows;

pub use bike::{bike_costs, bike_diagram};
pub use loose::{loose_costs, loose_diagram};
pub use rows::{costs_of, tables_of};
