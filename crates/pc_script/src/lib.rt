//! Scripts: the calls of callers as lines of one text, each line answered before the next is read. What is written is
//! the text that the definition gives for the bytes that were read, and every end of a script says how far it came.
#![tactic(auto)]

mod callers;
mod calling;
mod hearing;
mod item;
pub mod laws;
mod running;
mod script_end;
mod speaking;
mod turn;

pub use running::{MOST_SCRIPT_BYTES, run_script};
pub use script_end::ScriptEnd;
