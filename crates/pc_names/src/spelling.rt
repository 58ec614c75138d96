//! Sameness of spellings.

ghost use Rattle.std.specs.Prelude.{◌≡◌};
ghost use Rattle.pc_names.specs.Spelling.{same_spelling};

/// Whether bytes are the spelling of a word.
pub fn same_word(bytes: &[u8], word: &str) -> bool
    ensures { result ≡ same_spelling bytes.now word.now }
{
    bytes == word.as_bytes()
}
