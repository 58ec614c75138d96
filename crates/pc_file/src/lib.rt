//! Product files: costs, variables and rules that keep all limits of a file, when a rule holds for a word, and the
//! plain program that lists a file's products and its valid values. Its contract is the definition: the words for
//! which every rule holds, in lexicographic order. The text of a listing stands here, for all who print one.
#![tactic(auto)]

mod catalogue;
mod file;
mod holding;
pub mod laws;
mod limits;
mod listing;
mod listing_text;
mod nesting;
mod printed_lines;
mod printed_size;
mod products;
mod rule;
mod shared_file;
mod sizes;
mod variable;

pub use catalogue::Catalogue;
pub use file::{File, FileFault};
pub use holding::holds;
pub use limits::is_reserved;
pub use listing::{costs_of, listing_over, plain_listing};
pub use listing_text::push_listing;
pub use nesting::strength;
pub use printed_lines::{
    cost_line_size, end_line_size, header_line_size, rule_line_size, value_line_size,
    variable_line_size, with_line,
};
pub use products::{PlainFault, plain_products};
pub use rule::Rule;
pub use shared_file::SharedFile;
pub use sizes::{
    LINE_BYTES, MOST_COST, MOST_COSTS, MOST_MEMBERS, MOST_OPEN, MOST_RULES, MOST_WORDS, TEXT_BYTES,
};
pub use variable::{Value, Variable};
