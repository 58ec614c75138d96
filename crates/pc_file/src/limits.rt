//! The limits of a file.

ghost use Rattle.std.specs.Prelude.{◌≡◌, nat_le, ◌==◌, ◌&&◌, length};
ghost use Rattle.std.specs.List.{list_all, zip};
ghost use Rattle.pc_base.specs.Distinct.{all_differ};
ghost use Rattle.pc_file.specs.Limits.{is_reserved, is_cost, is_value, is_sized, is_variable, has_variable, has_value, is_row, is_spelled, is_spelled_step, is_rule};
ghost use Rattle.pc_file.specs.declared.rule.Rule.TheOpen.{OneOf, Table};

use crate::holding::value_name;
use crate::nesting::opens_at_most;
use crate::rule::Rule;
use crate::sizes::{MOST_COST, MOST_MEMBERS, MOST_OPEN};
use crate::variable::{Value, Variable};
use pc_base::{Sequence, all_differ};
use pc_diagram::MOST_VALUES;
use pc_names::same_word;

fn is_cost(cost: i64) -> bool
    ensures { result ≡ is_cost cost }
{
    -MOST_COST <= cost && cost <= MOST_COST
}

fn is_value(costs: usize, value: &Value) -> bool
    ensures { result ≡ is_value costs value.now }
{
    is_cost(value.first) && is_cost(value.second) && (costs == 2 || value.second == 0)
}

/// Whether a word is one of the rule language, which names no variable.
pub fn is_reserved(word: &[u8]) -> bool
    ensures { result ≡ is_reserved word.now }
{
    same_word(word, "and")
        || same_word(word, "or")
        || same_word(word, "not")
        || same_word(word, "in")
        || same_word(word, "same")
        || same_word(word, "atmost")
        || same_word(word, "table")
}

/// Whether the name and the values of a variable keep their limits in a file of so many costs.
fn is_variable(costs: usize, variable: &Variable) -> bool
    ensures { result ≡ is_variable costs variable.now }
{
    !is_reserved(variable.name.as_bytes())
        && is_sized(variable)
        && are_values(costs, variable.values.as_slice())
}

fn is_sized(variable: &Variable) -> bool
    ensures { result ≡ is_sized variable.now }
{
    variable.values.len() >= 1 && variable.values.len() <= MOST_VALUES as usize
}

fn are_values(costs: usize, values: &[Value]) -> bool
    ensures { result ≡ list_all (is_value costs) values.now }
{
    values.iter().all(|value| is_value(costs, value))
}

pub fn are_variables(costs: usize, variables: &[Variable]) -> bool
    ensures { result ≡ list_all (is_variable costs) variables.now }
{
    variables
        .iter()
        .all(|variable| is_variable(costs, variable))
}

/// Whether each rule can be spelled, names only what is there and opens at most so many parentheses at once as may be.
pub fn are_rules(variables: &[Variable], rules: &[Rule]) -> bool
    ensures { result ≡ list_all (is_rule variables.now) rules.now }
{
    rules.iter().all(|rule| is_spelled(variables, rule) && opens_at_most(rule, MOST_OPEN))
}

fn has_variable(variables: &[Variable], variable: u32) -> bool
    ensures { result ≡ has_variable variables.now variable }
{
    (variable as usize) < variables.len()
}

fn has_value(variables: &[Variable], variable: u32, value: u32) -> bool
    ensures { result ≡ has_value variables.now variable value }
{
    value_name(variables, variable, value).is_some()
}

fn row_has_values(variables: &[Variable], these: &[u32], row: &[u32]) -> bool
    ensures { result ≡ list_all (λ p. has_value variables.now p.0 p.1) (zip these.now row.now) }
{
    these.iter().zip(row).all(|(variable, value)| has_value(variables, *variable, *value))
}

fn is_row(variables: &[Variable], these: &[u32], row: &[u32]) -> bool
    ensures { result ≡ is_row variables.now these.now row.now }
{
    row.len() == these.len() && row_has_values(variables, these, row)
}

fn are_rows(variables: &[Variable], these: &[u32], rows: &[Sequence<u32>]) -> bool
    ensures { result ≡ list_all (is_row variables.now these.now) rows.now }
{
    rows.iter()
        .all(|row| is_row(variables, these, row.as_slice()))
}

fn has_values(variables: &[Variable], variable: u32, values: &[u32]) -> bool
    ensures { result ≡ list_all (has_value variables.now variable) values.now }
{
    values
        .iter()
        .all(|value| has_value(variables, variable, *value))
}

fn has_variables(variables: &[Variable], these: &[u32]) -> bool
    ensures { result ≡ list_all (has_variable variables.now) these.now }
{
    these
        .iter()
        .all(|variable| has_variable(variables, *variable))
}

fn is_one_of(variables: &[Variable], variable: u32, values: &[u32]) -> bool
    ensures { result ≡ is_spelled_step variables.now (OneOf variable values.now) }
{
    values.len() >= 1 && has_values(variables, variable, values) && all_differ(values)
}

fn is_table(variables: &[Variable], these: &[u32], rows: &[Sequence<u32>]) -> bool
    ensures { result ≡ is_spelled_step variables.now (Table these.now rows.now) }
{
    these.len() >= 1
        && has_variables(variables, these)
        && all_differ(these)
        && rows.len() >= 1
        && are_rows(variables, these, rows)
}

#[cycle(spelling)]
fn is_spelled(variables: &[Variable], rule: &Rule) -> bool
    ensures { result ≡ is_spelled variables.now rule.now }
{
    match rule {
        Rule::Is { variable, value } => has_value(variables, *variable, *value),
        Rule::IsNot { variable, value } => has_value(variables, *variable, *value),
        Rule::OneOf { variable, values } => is_one_of(variables, *variable, values.as_slice()),
        Rule::Not(inner) => is_spelled(variables, inner.get()),
        Rule::And(members) => is_chain(variables, members.as_slice()),
        Rule::Or(members) => is_chain(variables, members.as_slice()),
        Rule::Implies(premise, consequence) => {
            is_spelled(variables, premise.get()) && is_spelled(variables, consequence.get())
        }
        Rule::Same(variable, other) => {
            has_variable(variables, *variable) && has_variable(variables, *other)
        }
        Rule::AtMost { most, members } => is_at_most(variables, *most, members.as_slice()),
        Rule::Table {
            variables: these,
            rows,
        } => is_table(variables, these.as_slice(), rows.as_slice()),
    }
}

#[cycle(spelling)]
fn is_chain(variables: &[Variable], rules: &[Rule]) -> bool
    ensures { result ≡ (nat_le 2 (length rules.now) && list_all (is_spelled variables.now) rules.now) }
{
    rules.len() >= 2 && all_spelled(variables, rules)
}

#[cycle(spelling)]
fn is_at_most(variables: &[Variable], most: u32, rules: &[Rule]) -> bool
    ensures { result ≡ (nat_le most MOST_MEMBERS && nat_le 1 (length rules.now) && nat_le (length rules.now) MOST_MEMBERS && list_all (is_spelled variables.now) rules.now) }
{
    most as usize <= MOST_MEMBERS
        && rules.len() >= 1
        && rules.len() <= MOST_MEMBERS
        && all_spelled(variables, rules)
}

#[cycle(spelling)]
fn all_spelled(variables: &[Variable], rules: &[Rule]) -> bool
    ensures { result ≡ list_all (is_spelled variables.now) rules.now }
{
    for rule in rules {
        if !is_spelled(variables, rule) {
            return false;
        }
    }
    true
}
