//! How a text spells a name or a number. A `Name` is read exactly from the spellings of a name and is those bytes,
//! kept in the value; an integer is read exactly from what printing it would write, so each has one spelling. Both
//! take no memory. `Names` are names that differ, each found by its hash. Words are cut off a line at its spaces.
#![tactic(auto)]

pub mod laws;
mod line_words;
mod name;
mod names;
mod number;
mod spaces;
mod spelling;

pub use line_words::cut_word;
pub use name::{LONGEST_NAME, Name, NameFault};
pub use names::{Names, position};
pub use number::{read_int, read_unsigned};
pub use spaces::{space_place, word_place};
pub use spelling::same_word;
