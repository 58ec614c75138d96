//! The forms of a rule that have no rule inside.

ghost use Rattle.std.specs.Prelude.{◌≡◌, ◌==◌, length};
ghost use Rattle.std.specs.List.{list_all};
ghost use Rattle.pc_rules.specs.Parsed.{Reads};
ghost use Rattle.pc_rules.specs.Reading as spec;

use crate::cursor::Cursor;
use crate::fault::{RuleFault, refused};
use crate::lists::{rows, variables, words};
use crate::phrase::Phrase;
use crate::token::{Lexeme, Sign};
use pc_base::Sequence;
use std::alloc::Global;

/// `v in {a, b}`, after `v`.
#[tactic(auto, unfolding(crate::specs::Reading::one_of))]
fn one_of<'a>(
    alloc: Global,
    cursor: &mut Cursor<'a>,
    variable: Lexeme<'a>,
) -> Result<Phrase<'a>, RuleFault>
    ensures { Reads (spec.one_of variable.entry cursor.old) result cursor.new }
{
    if !cursor.eat_word("in") {
        return Err(refused());
    }
    cursor.expect(Sign::OpenBrace)?;
    let values = words(alloc, cursor)?;
    cursor.expect(Sign::CloseBrace)?;
    Ok(Phrase::OneOf { variable, values })
}

/// `v=a`, `v!=a` or `v in {a, b}`, after `v`.
#[tactic(auto, unfolding(crate::specs::Reading::comparison))]
pub fn comparison<'a>(
    alloc: Global,
    cursor: &mut Cursor<'a>,
    variable: Lexeme<'a>,
) -> Result<Phrase<'a>, RuleFault>
    ensures { Reads (spec.comparison variable.entry cursor.old) result cursor.new }
{
    if cursor.eat(Sign::Equal) {
        let value = cursor.word()?;
        return Ok(Phrase::Is { variable, value });
    }
    if cursor.eat(Sign::NotEqual) {
        let value = cursor.word()?;
        return Ok(Phrase::IsNot { variable, value });
    }
    one_of(alloc, cursor, variable)
}

/// `same(v, w)`, after `same`.
#[tactic(auto, unfolding(crate::specs::Reading::same))]
pub fn same<'a>(cursor: &mut Cursor<'a>) -> Result<Phrase<'a>, RuleFault>
    ensures { Reads (spec.same cursor.old) result cursor.new }
{
    cursor.expect(Sign::Open)?;
    let first = cursor.variable()?;
    cursor.expect(Sign::Comma)?;
    let second = cursor.variable()?;
    cursor.expect(Sign::Close)?;
    Ok(Phrase::Same(first, second))
}

/// Whether each row has as many words as the table has variables.
fn are_as_long(variables: &[Lexeme<'_>], rows: &[Sequence<Lexeme<'_>>]) -> bool
    ensures { result ≡ spec.are_as_long variables.now rows.now }
{
    let count = variables.len();
    rows.iter().all(|row| row.len() == count)
}

/// `table (v, w) {a b, c d}`, after `table`.
#[tactic(auto, unfolding(crate::specs::Reading::table))]
pub fn table<'a>(alloc: Global, cursor: &mut Cursor<'a>) -> Result<Phrase<'a>, RuleFault>
    ensures { Reads (spec.table cursor.old) result cursor.new }
{
    cursor.expect(Sign::Open)?;
    let variables = variables(alloc, cursor)?;
    cursor.expect(Sign::Close)?;
    cursor.expect(Sign::OpenBrace)?;
    let rows = rows(alloc, cursor)?;
    cursor.expect(Sign::CloseBrace)?;
    if !are_as_long(variables.as_slice(), rows.as_slice()) {
        return Err(refused());
    }
    Ok(Phrase::Table { variables, rows })
}
