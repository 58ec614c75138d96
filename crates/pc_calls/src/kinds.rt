//! The kinds of words.

ghost use Rattle.std.specs.Prelude.{◌≡◌};
ghost use Rattle.pc_calls.specs.CommandReader.{line_count_of, name_of};

use crate::limits::MOST_LINES;
use pc_names::{Name, read_unsigned};

/// A number of lines, from 1 to the most that may be announced.
pub fn line_count(word: &[u8]) -> Option<u64>
    ensures { result ≡ line_count_of word.now }
{
    read_unsigned(word).filter(|count| (1..=MOST_LINES).contains(count))
}

/// A name.
pub fn name(word: &[u8]) -> Option<Name>
    ensures { result ≡ name_of word.now }
{
    Name::read(word).ok()
}
