//! A word of a line.

ghost use Rattle.std.specs.Prelude.{◌≡◌, ◌<◌, ◌^◌};

use crate::bad_column::BadColumn;

/// A word of a line: the place of its first byte, counted from 0, and its bytes.
#[derive(Clone, Copy, Debug)]
pub struct PlacedWord<'a> {
    pub place: u64,
    pub bytes: &'a [u8],
    ghost in_memory: { place < 2 ^ 63 },
}

impl PlacedWord<'_> {
    ghost use Rattle.pc_calls.specs.LineWords.{word_of};
    ghost use Rattle.pc_calls.specs.CommandReader.{wrong};

    /// That this word is wrong.
    pub fn wrong(&self) -> BadColumn
        ensures { result ≡ wrong (word_of self.now) }
    {
        BadColumn {
            column: self.place + 1,
        }
    }
}
