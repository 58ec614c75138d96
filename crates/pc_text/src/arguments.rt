//! The words after the keyword of a statement.

ghost use Rattle.std.specs.Prelude.{◌≡◌};
ghost use Rattle.std.specs.List.{list_all};
ghost use Rattle.pc_text.specs.Arguments.{bytes, IsOnlyFreeName, IsOnlyName, IsValueOf};
ghost use Rattle.pc_text.specs.Given.{argument, number_at};
ghost use Rattle.pc_text.specs.Orders.{is_cost_text};

use crate::statement_fault::StatementFault;
use pc_file::{MOST_COST, Value, is_reserved};
use pc_names::{Name, read_int};
use pc_rules::Kind;

/// The one argument, if there is no other and it spells a name.
pub fn only_name(arguments: &[&[u8]]) -> Option<Name>
    ensures { IsOnlyName (bytes arguments.now) result }
{
    match arguments {
        [name] => Name::read(name).ok(),
        _ => None,
    }
}

/// The one argument, if there is no other and it spells a name that a variable may have.
pub fn only_free_name(arguments: &[&[u8]]) -> Option<Name>
    ensures { IsOnlyFreeName (bytes arguments.now) result }
{
    let name = only_name(arguments)?;
    (!is_reserved(name.as_bytes())).then_some(name)
}

/// The value that a name and a number for each cost give.
pub fn value_of(arguments: &[&[u8]], costs: usize) -> Result<Value, StatementFault>
    ensures { IsValueOf (bytes arguments.now) costs result }
{
    if arguments.is_empty() || arguments.len() - 1 != costs {
        return Err(StatementFault::Fault(Kind::Value));
    }
    let name = Name::read(argument(arguments, 0)).or(Err(StatementFault::Fault(Kind::Value)))?;
    if !are_costs(&arguments[1..]) {
        return Err(StatementFault::Fault(Kind::Number));
    }
    Ok(Value {
        name,
        first: number_at(arguments, 1),
        second: number_at(arguments, 2),
    })
}

/// The argument at a place, or nothing.
pub fn argument<'a>(arguments: &[&'a [u8]], place: usize) -> &'a [u8]
    ensures { result.now ≡ argument (bytes arguments.now) place }
{
    match arguments.get(place) {
        Some(word) => word,
        None => &[],
    }
}

fn are_costs(words: &[&[u8]]) -> bool
    ensures { result ≡ list_all is_cost_text (bytes words.now) }
{
    each_is_cost(words)
}

fn each_is_cost(words: &[&[u8]]) -> bool
    ensures { result ≡ list_all (λ word. is_cost_text word.now) words.now }
{
    for word in words {
        if !is_cost_text(word) {
            return false;
        }
    }
    true
}

/// The number that an argument spells, or 0.
fn number_at(arguments: &[&[u8]], place: usize) -> i64
    ensures { result ≡ number_at (bytes arguments.now) place }
{
    read_int(argument(arguments, place)).unwrap_or(0)
}

/// Whether a word spells a cost of a value.
fn is_cost_text(word: &[u8]) -> bool
    ensures { result ≡ is_cost_text word.now }
{
    match read_int(word) {
        Some(number) => -MOST_COST <= number && number <= MOST_COST,
        None => false,
    }
}
