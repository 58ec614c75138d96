//! The rule that a phrase names, with positions in place of words.

ghost use Rattle.std.specs.Prelude.{◌≡◌, map, Ok};
ghost use Rattle.pc_rules.specs.Parsed.{Gives};
ghost use Rattle.pc_rules.specs.declared.phrase.Phrase.TheOpen.{Is, IsNot, OneOf, Same, Table};
ghost use Rattle.pc_rules.specs.Naming as spec;

use crate::count::count_of;
use crate::fault::RuleFault;
use crate::kind::Kind;
use crate::phrase::Phrase;
use crate::token::Lexeme;
use pc_base::Sequence;
use pc_file::{Catalogue, Rule};
use pc_names::Name;
use sqlite_items::{Boxed, Items};
use std::alloc::Global;

fn unknown() -> RuleFault
    ensures { result ≡ RuleFault.Fault Kind.Unknown }
{
    RuleFault::Fault(Kind::Unknown)
}

fn position_or_unknown(found: Option<usize>) -> Result<u32, RuleFault>
    ensures { Gives (λ position. position) result (spec.position_or_unknown found) }
{
    match found {
        Some(position) if position <= u32::MAX as usize => Ok(position as u32),
        _ => Err(unknown()),
    }
}

/// Where the variable stands that a word names.
#[tactic(auto, unfolding(crate::specs::Naming::variable_at))]
fn variable_at(names: &Catalogue, word: &Lexeme<'_>) -> Result<u32, RuleFault>
    ensures { Gives (λ position. position) result (spec.variable_at names.now word.now) }
{
    match Name::read(word.as_bytes()) {
        Ok(name) => position_or_unknown(names.variable(&name)),
        Err(_) => Err(unknown()),
    }
}

/// Where the value of a variable stands that a word names.
#[tactic(auto, unfolding(crate::specs::Naming::value_at))]
fn value_at(names: &Catalogue, variable: u32, word: &Lexeme<'_>) -> Result<u32, RuleFault>
    ensures { Gives (λ position. position) result (spec.value_at names.now variable word.now) }
{
    match Name::read(word.as_bytes()) {
        Ok(name) => position_or_unknown(names.value(variable as usize, &name)),
        Err(_) => Err(unknown()),
    }
}

#[tactic(auto, unfolding(crate::specs::Naming::variables_at))]
fn variables_at(
    alloc: Global,
    names: &Catalogue,
    words: &[Lexeme<'_>],
) -> Result<Sequence<u32>, RuleFault>
    ensures { Gives (λ positions. positions) result (spec.variables_at names.now words.now) }
{
    let mut positions = Sequence::new(alloc);
    for word in words {
        positions.push(variable_at(names, word)?)?;
    }
    Ok(positions)
}

#[tactic(auto, unfolding(crate::specs::Naming::values_at))]
fn values_at(
    alloc: Global,
    names: &Catalogue,
    variable: u32,
    words: &[Lexeme<'_>],
) -> Result<Sequence<u32>, RuleFault>
    ensures { Gives (λ positions. positions) result (spec.values_at names.now variable words.now) }
{
    let mut positions = Sequence::new(alloc);
    for word in words {
        positions.push(value_at(names, variable, word)?)?;
    }
    Ok(positions)
}

/// A value of each variable.
#[tactic(auto, unfolding(crate::specs::Naming::row_at))]
fn row_at(
    alloc: Global,
    names: &Catalogue,
    variables: &[u32],
    words: &[Lexeme<'_>],
) -> Result<Sequence<u32>, RuleFault>
    ensures { Gives (λ positions. positions) result (spec.row_at names.now variables.now words.now) }
{
    let mut positions = Sequence::new(alloc);
    for (variable, word) in variables.iter().zip(words) {
        positions.push(value_at(names, *variable, word)?)?;
    }
    Ok(positions)
}

#[tactic(auto, unfolding(crate::specs::Naming::rows_at))]
fn rows_at(
    alloc: Global,
    names: &Catalogue,
    variables: &[u32],
    rows: &[Sequence<Lexeme<'_>>],
) -> Result<Sequence<Sequence<u32>>, RuleFault>
    ensures { Gives (λ rows. rows) result (spec.rows_at names.now variables.now rows.now) }
{
    let mut found = Sequence::new(alloc);
    for row in rows {
        found.push(row_at(alloc, names, variables, row.as_slice())?)?;
    }
    Ok(found)
}

/// `v=a`
fn equal_named(
    names: &Catalogue,
    variable: &Lexeme<'_>,
    value: &Lexeme<'_>,
) -> Result<Rule, RuleFault>
    ensures { Gives (λ rule. rule) result (spec.named_step names.now (Is variable.now value.now)) }
{
    let variable = variable_at(names, variable)?;
    let value = value_at(names, variable, value)?;
    Ok(Rule::Is { variable, value })
}

/// `v!=a`
fn unequal_named(
    names: &Catalogue,
    variable: &Lexeme<'_>,
    value: &Lexeme<'_>,
) -> Result<Rule, RuleFault>
    ensures { Gives (λ rule. rule) result (spec.named_step names.now (IsNot variable.now value.now)) }
{
    let variable = variable_at(names, variable)?;
    let value = value_at(names, variable, value)?;
    Ok(Rule::IsNot { variable, value })
}

/// `v in {a, b}`
fn one_of_named(
    alloc: Global,
    names: &Catalogue,
    variable: &Lexeme<'_>,
    values: &[Lexeme<'_>],
) -> Result<Rule, RuleFault>
    ensures { Gives (λ rule. rule) result (spec.named_step names.now (OneOf variable.now values.now)) }
{
    let variable = variable_at(names, variable)?;
    let values = values_at(alloc, names, variable, values)?;
    Ok(Rule::OneOf { variable, values })
}

/// `same(v, w)`
fn same_named(names: &Catalogue, first: &Lexeme<'_>, second: &Lexeme<'_>) -> Result<Rule, RuleFault>
    ensures { Gives (λ rule. rule) result (spec.named_step names.now (Same first.now second.now)) }
{
    let first = variable_at(names, first)?;
    let second = variable_at(names, second)?;
    Ok(Rule::Same(first, second))
}

/// `table (v, w) {a b, c d}`
fn table_named(
    alloc: Global,
    names: &Catalogue,
    variables: &[Lexeme<'_>],
    rows: &[Sequence<Lexeme<'_>>],
) -> Result<Rule, RuleFault>
    ensures { Gives (λ rule. rule) result (spec.named_step names.now (Table variables.now rows.now)) }
{
    let variables = variables_at(alloc, names, variables)?;
    let rows = rows_at(alloc, names, variables.as_slice(), rows)?;
    Ok(Rule::Table { variables, rows })
}

/// `not r`
fn negated(alloc: Global, inner: Rule) -> Result<Rule, RuleFault>
    ensures { Gives (λ rule. rule) result (Ok (Rule.Not inner)) }
{
    Ok(Rule::Not(Boxed::new(alloc, inner)?))
}

/// `r => s`
fn implied(alloc: Global, premise: Rule, conclusion: Rule) -> Result<Rule, RuleFault>
    ensures { Gives (λ rule. rule) result (Ok (Rule.Implies premise conclusion)) }
{
    let premise = Boxed::new(alloc, premise)?;
    let conclusion = Boxed::new(alloc, conclusion)?;
    Ok(Rule::Implies(premise, conclusion))
}

/// The rule that a phrase names.
#[cycle(naming)]
pub fn rule_named(alloc: Global, names: &Catalogue, phrase: &Phrase<'_>) -> Result<Rule, RuleFault>
    ensures { Gives (λ rule. rule) result (spec.rule_named names.now phrase.now) }
{
    match phrase {
        Phrase::Is { variable, value } => equal_named(names, variable, value),
        Phrase::IsNot { variable, value } => unequal_named(names, variable, value),
        Phrase::OneOf { variable, values } => {
            one_of_named(alloc, names, variable, values.as_slice())
        }
        Phrase::Not(inner) => negated(alloc, rule_named(alloc, names, inner.get())?),
        Phrase::And(members) => Ok(Rule::And(all_named(alloc, names, members.as_slice())?)),
        Phrase::Or(members) => Ok(Rule::Or(all_named(alloc, names, members.as_slice())?)),
        Phrase::Implies(premise, conclusion) => {
            let premise = rule_named(alloc, names, premise.get())?;
            let conclusion = rule_named(alloc, names, conclusion.get())?;
            implied(alloc, premise, conclusion)
        }
        Phrase::Same(first, second) => same_named(names, first, second),
        Phrase::AtMost { most, members } => {
            // That it is a number from 0 to 64 was seen before.
            let most = count_of(most.as_bytes()).unwrap_or(0);
            let members = all_named(alloc, names, members.as_slice())?;
            Ok(Rule::AtMost { most, members })
        }
        Phrase::Table { variables, rows } => {
            table_named(alloc, names, variables.as_slice(), rows.as_slice())
        }
    }
}

#[cycle(naming)]
fn all_named(
    alloc: Global,
    names: &Catalogue,
    phrases: &[Phrase<'_>],
) -> Result<Items<Rule>, RuleFault>
    ensures { Gives (λ rules. rules) result (spec.all_ok (map (spec.rule_named names.now) phrases.now)) }
{
    let mut rules = Items::new(alloc);
    for phrase in phrases {
        rules.push(rule_named(alloc, names, phrase)?)?;
    }
    Ok(rules)
}
