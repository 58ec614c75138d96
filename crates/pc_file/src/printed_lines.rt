//! How many bytes the lines of a printed form have, counted without printing them, with their limits.

ghost use Rattle.std.specs.Prelude.{◌≡◌, ◌↔◌, length, map, IsTrue};
ghost use Rattle.std.specs.List.{flat_map};
ghost use Rattle.pc_file.specs.PrintedForm.{header_line, cost_line, variable_line, value_line, rule_line, end_line, variable_lines, printed_lines};
ghost use Rattle.pc_file.specs.PrintedSize.{counted, with_line, with_lines, IsPrintable};

use crate::printed_size::rule_size;
use crate::rule::Rule;
use crate::sizes::{LINE_BYTES, TEXT_BYTES};
use crate::variable::{Value, Variable};
use pc_base::signed_width;
use pc_names::Name;

/// The bytes of a line `product 1`.
pub fn header_line_size() -> usize
    ensures { result ≡ length header_line }
{
    "product 1".len()
}

/// The bytes of a line `cost NAME`.
#[tactic(auto, using(pc_names::proofs::Spellings::is_name_short))]
pub fn cost_line_size(name: &Name) -> usize
    ensures { result ≡ length (cost_line name.now) }
{
    "cost ".len() + name.as_bytes().len()
}

/// The bytes of a line `variable NAME`.
#[tactic(auto, using(pc_names::proofs::Spellings::is_name_short))]
pub fn variable_line_size(name: &Name) -> usize
    ensures { result ≡ length (variable_line name.now) }
{
    "variable ".len() + name.as_bytes().len()
}

/// The bytes of a line `value NAME NUMBER`, or `value NAME NUMBER NUMBER` in a file of two costs.
#[tactic(auto, using(pc_names::proofs::Spellings::is_name_short))]
pub fn value_line_size(costs: usize, value: &Value) -> usize
    ensures { result ≡ length (value_line costs value.now) }
{
    let mut size = "value ".len() + value.name.as_bytes().len();
    if costs >= 1 {
        size += " ".len() + signed_width(value.first);
    }
    if costs >= 2 {
        size += " ".len() + signed_width(value.second);
    }
    size
}

/// The bytes of a line `rule` with a rule over the names of these variables and their values, or the greatest number
/// of 64 bits where there are more.
pub fn rule_line_size(variables: &[Variable], rule: &Rule) -> usize
    ensures { result ≡ counted (length (rule_line variables.now rule.now)) }
{
    "rule ".len().saturating_add(rule_size(variables, rule))
}

/// The bytes of a line `end`.
pub fn end_line_size() -> usize
    ensures { result ≡ length end_line }
{
    "end".len()
}

/// The bytes of printed lines with one line more of so many bytes and its line feed, or `None` where that breaks a
/// limit.
pub fn with_line(bytes: usize, line: usize) -> Option<usize>
    ensures { result ≡ with_line bytes line }
{
    if line > LINE_BYTES {
        return None;
    }
    let bytes = bytes.saturating_add(line + 1);
    (bytes <= TEXT_BYTES).then_some(bytes)
}

fn with_costs(bytes: usize, costs: &[Name]) -> Option<usize>
    ensures { result ≡ with_lines bytes (map cost_line costs.now) }
{
    let mut bytes = bytes;
    for name in costs {
        bytes = with_line(bytes, cost_line_size(name))?;
    }
    Some(bytes)
}

fn with_variable(bytes: usize, costs: usize, variable: &Variable) -> Option<usize>
    ensures { result ≡ with_lines bytes (variable_lines costs variable.now) }
{
    let mut bytes = with_line(bytes, variable_line_size(&variable.name))?;
    for value in variable.values.as_slice() {
        bytes = with_line(bytes, value_line_size(costs, value))?;
    }
    Some(bytes)
}

fn with_variables(bytes: usize, costs: usize, variables: &[Variable]) -> Option<usize>
    ensures { result ≡ with_lines bytes (flat_map (variable_lines costs) variables.now) }
{
    let mut bytes = bytes;
    for variable in variables {
        bytes = with_variable(bytes, costs, variable)?;
    }
    Some(bytes)
}

fn with_rules(bytes: usize, variables: &[Variable], rules: &[Rule]) -> Option<usize>
    ensures { result ≡ with_lines bytes (map (rule_line variables.now) rules.now) }
{
    let mut bytes = bytes;
    for rule in rules {
        bytes = with_line(bytes, rule_line_size(variables, rule))?;
    }
    Some(bytes)
}

/// The bytes of the printed form of a file with these costs, variables and rules, or `None` where that breaks a limit.
#[tactic(auto, using(crate::proofs::LineSizeLemmas::lines_append))]
pub fn printed_size(costs: &[Name], variables: &[Variable], rules: &[Rule]) -> Option<usize>
    ensures { result ≡ with_lines 0 (printed_lines (record { costs = costs.now; variables = variables.now; rules = rules.now })) }
{
    let bytes = with_line(0, header_line_size())?;
    let bytes = with_costs(bytes, costs)?;
    let bytes = with_variables(bytes, costs.len(), variables)?;
    let bytes = with_rules(bytes, variables, rules)?;
    with_line(bytes, end_line_size())
}

/// Whether the printed form of a file with these costs, variables and rules keeps its limits.
#[tactic(auto, using(crate::proofs::LineSizeLemmas::keeps_limits))]
pub fn is_printable(costs: &[Name], variables: &[Variable], rules: &[Rule]) -> bool
    ensures { IsTrue result ↔ IsPrintable (record { costs = costs.now; variables = variables.now; rules = rules.now }) }
{
    printed_size(costs, variables, rules).is_some()
}
