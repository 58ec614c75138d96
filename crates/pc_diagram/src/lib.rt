//! The plain types of a configuration - words, choices, bounds, costs, listings - and the plain program that
//! lists valid values. Its contract is the definition: for each variable exactly the values that some fitting
//! word takes, each with the cheapest such word. And decision diagrams: a `Diagram` is a canonical one, and its
//! check tells what is wrong with tables that are none.
#![tactic(auto)]

mod bounds;
mod choice;
mod choices;
mod costing;
mod costs;
mod diagram;
mod diagram_fault;
mod diagram_laws;
mod flaw;
mod flawed_nodes;
mod flaws;
pub mod laws;
mod limits;
mod listed;
mod matching;
mod place;
mod priced;
mod raw_diagram;
mod shape;
mod side;
mod steps;
mod table;
mod valid_values;
mod weight;
mod which;
mod word;

pub use bounds::Bounds;
pub use choice::Choice;
pub use choices::{Choices, are_choices_of};
pub use costing::{are_costs_of, is_priced};
pub use costs::{CostPair, Costs};
pub use diagram::Diagram;
pub use diagram_fault::DiagramFault;
pub use limits::{MOST_NODES, MOST_VALUES, MOST_VARIABLES};
pub use listed::{Listed, Listing};
pub use raw_diagram::RawDiagram;
pub use side::Side;
pub use steps::Steps;
pub use valid_values::listing;
pub use weight::{Ranked, Weight};
pub use which::Which;
pub use word::Word;
