//! Whether a rule holds for a word.

ghost use Rattle.std.specs.Prelude.{◌≡◌, ◌≤◌, length, count_by};
ghost use Rattle.std.specs.List.{list_all, list_any};
ghost use Rattle.pc_diagram.specs.Fitting.{takes};
ghost use Rattle.pc_file.specs.Names.{taken_name, value_name};
ghost use Rattle.pc_file.specs.Rule.{row_fits, same_name, holds};
ghost use Rattle.std.specs.Option.{option_copied};

use crate::file::File;
use crate::rule::Rule;
use crate::variable::Variable;
use pc_base::Sequence;
use pc_diagram::Word;
use pc_names::Name;

/// Whether a rule holds for a word. A word takes no value at a variable past its end, and two values that are not
/// there count as having one name.
pub fn holds(file: &File, rule: &Rule, word: &Word) -> bool
    ensures { result ≡ holds file.now.variables word.now rule.now }
{
    rule_holds(file.variables(), word.as_slice(), rule)
}

fn takes(word: &[u32], variable: u32, value: u32) -> bool
    ensures { result ≡ takes word.now variable value }
{
    match word.get(variable as usize) {
        Some(taken) => *taken == value,
        None => false,
    }
}

fn takes_one(word: &[u32], variable: u32, values: &[u32]) -> bool
    ensures { result ≡ list_any (takes word.now variable) values.now }
{
    values.iter().any(|value| takes(word, variable, *value))
}

pub fn value_name(variables: &[Variable], variable: u32, value: u32) -> Option<&Name>
    ensures { option_copied result ≡ value_name variables.now variable value }
{
    let variable = variables.get(variable as usize)?;
    let value = variable.values.get(value as usize)?;
    Some(&value.name)
}

fn taken_name<'a>(variables: &'a [Variable], word: &[u32], variable: u32) -> Option<&'a Name>
    ensures { option_copied result ≡ taken_name variables.now word.now variable }
{
    let value = word.get(variable as usize)?;
    value_name(variables, variable, *value)
}

fn same_names(variables: &[Variable], word: &[u32], variable: u32, other: u32) -> bool
    ensures { result ≡ same_name (taken_name variables.now word.now variable) (taken_name variables.now word.now other) }
{
    match (
        taken_name(variables, word, variable),
        taken_name(variables, word, other),
    ) {
        (Some(a), Some(b)) => a == b,
        (None, None) => true,
        _ => false,
    }
}

fn row_fits(word: &[u32], variables: &[u32], row: &[u32]) -> bool
    ensures { result ≡ row_fits word.now variables.now row.now }
{
    variables
        .iter()
        .zip(row)
        .all(|(variable, value)| takes(word, *variable, *value))
}

fn some_row_fits(word: &[u32], variables: &[u32], rows: &[Sequence<u32>]) -> bool
    ensures { result ≡ list_any (row_fits word.now variables.now) rows.now }
{
    rows.iter()
        .any(|row| row_fits(word, variables, row.as_slice()))
}

#[cycle(holding)]
fn rule_holds(variables: &[Variable], word: &[u32], rule: &Rule) -> bool
    ensures { result ≡ holds variables.now word.now rule.now }
{
    match rule {
        Rule::Is { variable, value } => takes(word, *variable, *value),
        Rule::IsNot { variable, value } => !takes(word, *variable, *value),
        Rule::OneOf { variable, values } => takes_one(word, *variable, values.as_slice()),
        Rule::Not(inner) => !rule_holds(variables, word, inner.get()),
        Rule::And(members) => all_hold(variables, word, members.as_slice()),
        Rule::Or(members) => any_holds(variables, word, members.as_slice()),
        Rule::Implies(premise, consequence) => {
            !rule_holds(variables, word, premise.get())
                || rule_holds(variables, word, consequence.get())
        }
        Rule::Same(variable, other) => same_names(variables, word, *variable, *other),
        Rule::AtMost { most, members } => count_holding(variables, word, members.as_slice())
            <= *most as usize,
        Rule::Table {
            variables: these,
            rows,
        } => some_row_fits(word, these.as_slice(), rows.as_slice()),
    }
}

#[cycle(holding)]
pub fn all_hold(variables: &[Variable], word: &[u32], rules: &[Rule]) -> bool
    ensures { result ≡ list_all (holds variables.now word.now) rules.now }
{
    for rule in rules {
        if !rule_holds(variables, word, rule) {
            return false;
        }
    }
    true
}

#[cycle(holding)]
fn any_holds(variables: &[Variable], word: &[u32], rules: &[Rule]) -> bool
    ensures { result ≡ list_any (holds variables.now word.now) rules.now }
{
    for rule in rules {
        if rule_holds(variables, word, rule) {
            return true;
        }
    }
    false
}

#[cycle(holding)]
fn count_holding(variables: &[Variable], word: &[u32], rules: &[Rule]) -> usize
    ensures { result ≡ count_by (holds variables.now word.now) rules.now }
{
    let mut count = 0;
    for rule in rules {
        if rule_holds(variables, word, rule) {
            count += 1;
        }
    }
    count
}
