//! What every crate above needs and none should write twice: want of memory, a list that contracts see as a
//! list, one with places taken before, bytes as text, the cutting of lines, and numbers as decimal text. Contracts
//! promise the exact list after each call, and that a call that runs out of memory leaves its list as it was.
#![tactic(auto)]

mod distinct;
pub mod laws;
mod lines;
mod memory;
mod reserved;
mod sequence;
mod text;
mod threads;
mod width;

pub use distinct::all_differ;
pub use lines::{cut_line, first_line_width};
pub use memory::NoMemory;
pub use reserved::Reserved;
pub use sequence::Sequence;
pub use text::{Line, Text};
pub use threads::crosses_threads;
pub use width::{signed_width, unsigned_width};
