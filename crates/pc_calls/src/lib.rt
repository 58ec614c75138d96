//! The calls of the configurator, what each entry of its history says, and the replies: their types, the reading of
//! a command line and the writing of a reply. A line is read exactly as its words say, or the column of the first
//! wrong word is told; a reply is written exactly as its definition says.
#![tactic(auto)]

mod bad_column;
mod call;
mod command;
mod dropped;
mod entry;
mod head;
mod head_text;
mod kinds;
pub mod laws;
mod limits;
mod line_call;
mod line_words;
mod live;
mod outcome;
mod placed_word;
mod reading;
mod reply;
mod words_left;
mod writing;

pub use bad_column::BadColumn;
pub use call::Call;
pub use command::Command;
pub use dropped::{DropList, Dropped};
pub use entry::Entry;
pub use head::Head;
pub use head_text::write_head;
pub use limits::{MOST_LINES, MOST_LIVE, MOST_SESSIONS};
pub use line_call::LineCall;
pub use line_words::first_word;
pub use live::{Live, LiveList};
pub use outcome::Outcome;
pub use placed_word::PlacedWord;
pub use reading::read_call;
pub use reply::{Reply, Shown};
pub use writing::{push_reply, write_reply};
