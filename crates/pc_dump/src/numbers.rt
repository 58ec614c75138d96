//! The words of a diagram's text that are numbers.

ghost use Rattle.std.specs.Prelude.{◌≡◌, ◌<◌, ◌^◌, ◌↔◌, ℕ, decimal, Option, IfSome, IsTrue, Some};
ghost use Rattle.pc_dump.specs.Dump.{edge_word};
ghost use Rattle.pc_dump.specs.Form.{IsEdge};

use pc_names::read_int;

/// Whether a word is the one that is wanted.
pub(crate) fn is_word(word: &[u8], wanted: &[u8]) -> bool
    ensures { IsTrue result ↔ (word.now ≡ wanted.now) }
{
    word == wanted
}

/// The number below 2^32 that a word is in canonical decimal.
pub(crate) fn number_of(word: &[u8]) -> Option<u32>
    ensures spelt { IfSome result (λ n. word.now ≡ decimal n) }
    ensures small { IfSome result (λ n. n < 2 ^ 32) }
    ensures every { (n : ℕ) → n < 2 ^ 32 → word.now ≡ decimal n → result ≡ Some n }
{
    match read_int(word) {
        Some(number) => u32::try_from(number).ok(),
        None => None,
    }
}

/// The edge that a word is: a number, or `-` for none.
pub(crate) fn edge_of(word: &[u8]) -> Option<Option<u32>>
    ensures is { IfSome result (λ edge. word.now ≡ edge_word edge) }
    ensures small { IfSome result IsEdge }
    ensures every { (edge : Option ℕ) → IsEdge edge → word.now ≡ edge_word edge → result ≡ Some edge }
{
    if is_word(word, b"-") {
        return Some(None);
    }
    match number_of(word) {
        Some(target) => Some(Some(target)),
        None => None,
    }
}
