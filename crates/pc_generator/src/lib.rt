//! The generator: a product file by the number of its variables, the calls of a book that ask it three ways, and the
//! summary of what they answer. The summary is the one that the definitions of these say, or memory ran out.
#![tactic(auto)]

mod asking;
mod bounds;
mod file;
mod limits;
mod lines;
mod numbered;
mod size;
mod summing;
mod told;

pub use asking::Answers;
pub use file::generated_file;
pub use limits::LEAST_VARIABLES;
pub use size::Size;
pub use summing::summary;
