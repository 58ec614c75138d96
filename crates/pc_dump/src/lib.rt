//! The text of a diagram: what a diagram prints, and what is read of it. A text is read line by line, and has its form
//! exactly where some tables print it; else the first line is told at which its lines begin the text of none.
#![tactic(auto)]

mod draft;
mod dump;
mod kinds;
pub mod laws;
mod line_words;
mod numbers;
mod reader;
mod reading;
mod writing;

pub use dump::Dump;
pub use reading::read_dump;
pub use writing::push_dump;
