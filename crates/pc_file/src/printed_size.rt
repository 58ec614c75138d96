//! How many bytes the printed form of a rule has, counted without printing it. A size that is greater than the
//! greatest number of 64 bits counts as that.

ghost use Rattle.std.specs.Prelude.{◌≡◌, ◌≤◌, ◌+◌, ◌-◌, ◌*◌, length, sum_by};
ghost use Rattle.std.specs.List.{join_by};
ghost use Rattle.pc_file.specs.declared.rule.Rule.TheOpen.{Is, OneOf, Same, Table};
ghost use Rattle.pc_file.specs.PrintedRule.{printed_variable, printed_value, printed_row, printed_rule, printed_in_place, text_of};
ghost use Rattle.pc_file.specs.PrintedSize.{counted};

use crate::holding::value_name;
use crate::nesting::strength;
use crate::rule::Rule;
use crate::variable::Variable;
use pc_base::{Sequence, unsigned_width};

/// The bytes of a variable's name, at most 32; 0 where there is no such variable.
#[tactic(auto, using(pc_names::proofs::Spellings::is_name_short))]
fn variable_size(variables: &[Variable], variable: u32) -> usize
    ensures size { result ≡ length (printed_variable variables.now variable) }
    ensures small { result ≤ 32 }
{
    match variables.get(variable as usize) {
        Some(variable) => variable.name.as_bytes().len(),
        None => 0,
    }
}

/// The bytes of a value's name, at most 32; 0 where there is no such value.
#[tactic(auto, using(pc_names::proofs::Spellings::is_name_short))]
fn value_size(variables: &[Variable], variable: u32, value: u32) -> usize
    ensures size { result ≡ length (printed_value variables.now variable value) }
    ensures small { result ≤ 32 }
{
    match value_name(variables, variable, value) {
        Some(name) => name.as_bytes().len(),
        None => 0,
    }
}

/// The bytes of so many items, of so many bytes together, with a separator between each two.
fn joined_size(items: usize, count: usize, separator: &str) -> usize
    ensures { result ≡ counted (items + (count - 1) * length separator.now) }
{
    items.saturating_add(count.saturating_sub(1).saturating_mul(separator.len()))
}

fn sum_of_variables(variables: &[Variable], these: &[u32]) -> usize
    ensures { result ≡ counted (sum_by (λ variable. length (printed_variable variables.now variable)) these.now) }
{
    let mut size = 0usize;
    for variable in these {
        size = size.saturating_add(variable_size(variables, *variable));
    }
    size
}

fn sum_of_values(variables: &[Variable], variable: u32, values: &[u32]) -> usize
    ensures { result ≡ counted (sum_by (λ value. length (printed_value variables.now variable value)) values.now) }
{
    let mut size = 0usize;
    for value in values {
        size = size.saturating_add(value_size(variables, variable, *value));
    }
    size
}

fn row_size(variables: &[Variable], these: &[u32], row: &[u32]) -> usize
    ensures { result ≡ counted (length (printed_row variables.now these.now row.now)) }
{
    let mut size = 0usize;
    for (variable, value) in these.iter().zip(row) {
        size = size.saturating_add(value_size(variables, *variable, *value));
    }
    joined_size(size, these.len().min(row.len()), " ")
}

fn sum_of_rows(variables: &[Variable], these: &[u32], rows: &[Sequence<u32>]) -> usize
    ensures { result ≡ counted (sum_by (λ row. length (printed_row variables.now these.now row)) rows.now) }
{
    let mut size = 0usize;
    for row in rows {
        size = size.saturating_add(row_size(variables, these, row.as_slice()));
    }
    size
}

fn one_of_size(variables: &[Variable], variable: u32, values: &[u32]) -> usize
    ensures { result ≡ counted (length (text_of variables.now (OneOf variable values.now))) }
{
    joined_size(
        sum_of_values(variables, variable, values),
        values.len(),
        ", ",
    )
    .saturating_add(variable_size(variables, variable) + " in {".len() + "}".len())
}

fn table_size(variables: &[Variable], these: &[u32], rows: &[Sequence<u32>]) -> usize
    ensures { result ≡ counted (length (text_of variables.now (Table these.now rows.now))) }
{
    let names = joined_size(sum_of_variables(variables, these), these.len(), ", ");
    let rows = joined_size(sum_of_rows(variables, these, rows), rows.len(), ", ");
    names
        .saturating_add(rows)
        .saturating_add("table (".len() + ") {".len() + "}".len())
}

/// The bytes of a rule's printed form.
#[cycle(size)]
pub fn rule_size(variables: &[Variable], rule: &Rule) -> usize
    ensures { result ≡ counted (length (printed_rule variables.now rule.now)) }
{
    match rule {
        Rule::Is { variable, value } => {
            variable_size(variables, *variable)
                + "=".len()
                + value_size(variables, *variable, *value)
        }
        Rule::IsNot { variable, value } => {
            variable_size(variables, *variable)
                + "!=".len()
                + value_size(variables, *variable, *value)
        }
        Rule::OneOf { variable, values } => one_of_size(variables, *variable, values.as_slice()),
        Rule::Not(inner) => "not "
            .len()
            .saturating_add(size_in_place(4, variables, inner.get())),
        Rule::And(members) => members_size(3, variables, members.as_slice(), " and "),
        Rule::Or(members) => members_size(2, variables, members.as_slice(), " or "),
        Rule::Implies(premise, consequence) => size_in_place(1, variables, premise.get())
            .saturating_add(" => ".len())
            .saturating_add(size_in_place(1, variables, consequence.get())),
        Rule::Same(variable, other) => {
            "same(".len()
                + variable_size(variables, *variable)
                + ", ".len()
                + variable_size(variables, *other)
                + ")".len()
        }
        Rule::AtMost { most, members } => {
            members_size(0, variables, members.as_slice(), ", ").saturating_add(
                "atmost ".len() + unsigned_width(*most as u64) + " (".len() + ")".len(),
            )
        }
        Rule::Table {
            variables: these,
            rows,
        } => table_size(variables, these.as_slice(), rows.as_slice()),
    }
}

/// The same of a rule that stands in a place which asks for a strength.
#[cycle(size)]
fn size_in_place(asked: u8, variables: &[Variable], rule: &Rule) -> usize
    ensures { result ≡ counted (length (printed_in_place asked variables.now rule.now)) }
{
    let size = rule_size(variables, rule);
    if strength(rule) < asked {
        size.saturating_add("(".len() + ")".len())
    } else {
        size
    }
}

/// The same of several members in places of one kind, with a separator between each two.
#[cycle(size)]
fn members_size(asked: u8, variables: &[Variable], rules: &[Rule], separator: &str) -> usize
    ensures { result ≡ counted (length (join_by (printed_in_place asked variables.now) separator.now rules.now)) }
{
    let mut size = 0usize;
    for rule in rules {
        size = size.saturating_add(size_in_place(asked, variables, rule));
    }
    joined_size(size, rules.len(), separator)
}
