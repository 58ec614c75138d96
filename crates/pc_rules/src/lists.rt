//! Lists of words.

ghost use Rattle.std.specs.Prelude.{◌≡◌, ◌<◌, length, IfOk, OnOk};
ghost use Rattle.pc_rules.specs.Parsed.{Reads};
ghost use Rattle.pc_rules.specs.Words as spec;

use crate::cursor::Cursor;
use crate::fault::{RuleFault, refused};
use crate::token::{Lexeme, Sign};
use pc_base::{NoMemory, Sequence};
use std::alloc::Global;

/// One or more words, with commas between.
pub fn words<'a>(alloc: Global, cursor: &mut Cursor<'a>) -> Result<Sequence<Lexeme<'a>>, RuleFault>
    ensures { Reads (spec.listed spec.word cursor.old) result cursor.new }
{
    let mut found = Sequence::new(alloc);
    // Each turn takes a token.
    for _turn in 0..cursor.left() {
        found.push(cursor.word()?)?;
        if !cursor.eat(Sign::Comma) {
            return Ok(found);
        }
    }
    Err(refused())
}

/// One or more words that may name variables, with commas between.
pub fn variables<'a>(
    alloc: Global,
    cursor: &mut Cursor<'a>,
) -> Result<Sequence<Lexeme<'a>>, RuleFault>
    ensures { Reads (spec.listed spec.variable cursor.old) result cursor.new }
{
    let mut found = Sequence::new(alloc);
    // Each turn takes a token.
    for _turn in 0..cursor.left() {
        found.push(cursor.variable()?)?;
        if !cursor.eat(Sign::Comma) {
            return Ok(found);
        }
    }
    Err(refused())
}

/// The words up to the first sign.
fn words_at<'a>(alloc: Global, cursor: &mut Cursor<'a>) -> Result<Sequence<Lexeme<'a>>, NoMemory>
    ensures { IfOk result (λ found. (found, cursor.new) ≡ spec.words_at cursor.old) }
{
    let mut found = Sequence::new(alloc);
    while let Some(word) = cursor.next_word() {
        found.push(word)?;
    }
    Ok(found)
}

/// One or more words with nothing between.
#[tactic(auto, unfolding(crate::specs::Words::row))]
fn row<'a>(alloc: Global, cursor: &mut Cursor<'a>) -> Result<Sequence<Lexeme<'a>>, RuleFault>
    ensures { Reads (spec.row cursor.old) result cursor.new }
{
    let found = words_at(alloc, cursor)?;
    if found.is_empty() {
        return Err(refused());
    }
    Ok(found)
}

/// One or more rows, with commas between.
pub fn rows<'a>(
    alloc: Global,
    cursor: &mut Cursor<'a>,
) -> Result<Sequence<Sequence<Lexeme<'a>>>, RuleFault>
    ensures { Reads (spec.listed spec.row cursor.old) result cursor.new }
{
    let mut found = Sequence::new(alloc);
    // Each turn takes a token.
    for _turn in 0..cursor.left() {
        found.push(row(alloc, cursor)?)?;
        if !cursor.eat(Sign::Comma) {
            return Ok(found);
        }
    }
    Err(refused())
}
