//! The words of a line.

ghost use Rattle.std.specs.Prelude.{◌≡◌, map, IfOk};
ghost use Rattle.pc_names.specs.LineWords.{words};
ghost use Rattle.pc_text.specs.Arguments.{bytes};
ghost use Rattle.pc_text.specs.Given.{arguments_of};

use crate::keyword::Keyword;
use pc_base::NoMemory;
use pc_names::cut_word;
use std::alloc::Global;

/// The words after a keyword, in order; none after `rule`, whose text is read as a whole.
pub fn arguments_of(
    alloc: Global,
    word: Option<Keyword>,
    text: &[u8],
) -> Result<Vec<&[u8]>, NoMemory>
    ensures { IfOk result (λ found. bytes found.items ≡ arguments_of word (words text.now)) }
{
    match word {
        Some(Keyword::Rule) => Ok(Vec::new(alloc)),
        _ => words(alloc, text),
    }
}

/// The words of a line, in order.
fn words(alloc: Global, line: &[u8]) -> Result<Vec<&[u8]>, NoMemory>
    ensures { IfOk result (λ found. map (λ word. word.now) found.items ≡ words line.now) }
{
    let mut found = Vec::new(alloc);
    let mut rest = line;
    loop {
        let (word, after) = cut_word(rest);
        if word.is_empty() {
            return Ok(found);
        }
        found.push(word)?;
        rest = after;
    }
}
