//! The book of a shop and the parts of its callers. A caller's own part has its open sessions and its entries that no other
//! caller has seen: whatever the others have called meanwhile, it answers as the history with these entries at its end does. A
//! call that others see appends one block to the book's journal, which is legal at all times; what the book keeps beside the
//! journal is what the state after it has.
#![tactic(auto)]

mod book;
mod change;
mod guest;
mod opening;
mod own;
mod publishing;
mod rebasing;
mod replying;
mod shelf;

pub use book::{Block, Book, Journal};
pub use change::Change;
pub use guest::Guest;
pub use own::Own;
pub use replying::{plain_head, refused};
