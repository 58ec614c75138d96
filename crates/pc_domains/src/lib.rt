//! Boards: what a shopper's choices and bounds leave of each variable's values. `Board::new` makes one where some word fits,
//! `with_choice` and `without_choice` bring it forward, and `Board::listing` is exactly the listing over the diagram's words,
//! joined from what is kept of the paths from both ends. `least` is the least of a cost over the words that fit.
#![tactic(auto)]

mod asked;
mod board;
mod board_fault;
mod ends;
mod floor;
mod front_listing;
mod front_way;
mod join;
mod label_listing;
mod label_way;
pub mod laws;
mod least_cost;
mod swapped;

pub use board::Board;
pub use board_fault::BoardFault;
pub use ends::Ends;
pub use least_cost::least;
