//! The bytes of a conversation: what the lines that a caller sends say, what they are answered where they stand for
//! no call, and the reading of the text that follows a publish. The text gives the file that it spells, the first
//! fault that stands in it, or nothing where the input ends before it does.
#![tactic(auto)]

mod answers;
mod body;
mod body_fault;
mod body_text;
mod hearing;
mod item;
pub mod laws;
mod reading;

pub use answers::{push_bad, push_fault};
pub use body::Body;
pub use body_fault::BodyFault;
pub use hearing::hear;
pub use item::{Announced, Heard, Item};
pub use reading::read_body;
