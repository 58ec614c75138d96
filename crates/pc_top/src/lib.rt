//! The program: what each form of the command line reads and writes, over any source and sink.
#![tactic(auto)]

mod building;
mod check_reply;
mod form;
mod generate;
mod job;
pub mod laws;
mod listing;
mod program;
mod refusals;
mod response;
mod script;
mod status;

pub use program::run;
pub use status::Status;
