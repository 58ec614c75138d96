//! The words of a line: what stands between its spaces.

ghost use Rattle.std.specs.Prelude.{◌≡◌};
ghost use Rattle.pc_names.specs.LineWords.{after_word, first_word, from_word};

use crate::spaces::{space_place, word_place};

/// The first word of a line, empty where it has none, and the bytes after that word.
#[tactic(auto, unfolding(crate::specs::LineWords::first_word, crate::specs::LineWords::after_word))]
pub fn cut_word(line: &[u8]) -> (&[u8], &[u8])
    ensures word { result.0.now ≡ first_word line.now }
    ensures after { result.1.now ≡ after_word line.now }
{
    let bytes = from_word(line);
    bytes.split_at(space_place(bytes))
}

/// The bytes from the first word on.
#[tactic(auto, unfolding(crate::specs::LineWords::from_word))]
fn from_word(line: &[u8]) -> &[u8]
    ensures { result.now ≡ from_word line.now }
{
    &line[word_place(line)..]
}
