//! The text of a product. What is read is the file that the bytes spell, and a text that spells no file is answered
//! by the number of its first line that has a fault and the kind of the first fault on it. A file is written in its
//! printed form, which spells it and no other file.
#![tactic(auto)]

mod arguments;
mod draft;
mod keyword;
pub mod laws;
mod limits;
mod line_words;
mod reading;
mod statement_fault;
mod text;
mod text_fault;
mod variables;
mod writer;

pub use limits::LINES;
pub use pc_rules::Kind;
pub use text::read_file;
pub use text_fault::TextFault;
pub use writer::write_file;
