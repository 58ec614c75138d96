//! The words of a line.

ghost use Rattle.std.specs.Prelude.{◌≡◌, ◌≤◌, [], ◌∷◌, length, MatchOption, IfSome};
ghost use Rattle.std.specs.List.{before_first};
ghost use Rattle.pc_names.specs.Spaces.{is_space};
ghost use Rattle.pc_calls.specs.LineWords.{word_of, words_from, end_of};

use crate::placed_word::PlacedWord;
use pc_names::{space_place, word_place};

/// The first word of a line from a byte on, if it has one; a word that begins before that byte counts from it on.
pub fn first_word(line: &[u8], from: u64) -> Option<PlacedWord<'_>>
    ensures word { MatchOption result (words_from line.now from ≡ [])
        (λ word. words_from line.now from ≡ word_of word ∷ words_from line.now (end_of (word_of word))) }
    ensures after_from { IfSome result (λ word. from ≤ word.place) }
    ensures within { IfSome result (λ word. end_of (word_of word) ≤ length line.now) }
{
    let start = (from as usize).min(line.len());
    let rest = &line[start..];
    let skipped = word_place(rest);
    if skipped == rest.len() {
        return None;
    }
    Some(PlacedWord {
        place: (start + skipped) as u64,
        bytes: word_front(&rest[skipped..]),
    })
}

/// The bytes before the first space.
fn word_front(bytes: &[u8]) -> &[u8]
    ensures { result.now ≡ before_first is_space bytes.now }
{
    &bytes[..space_place(bytes)]
}
