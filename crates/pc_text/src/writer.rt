//! The text of a file.

ghost use Rattle.std.specs.Prelude.{◌≡◌, true, ◌++◌, [], ◌∷◌, codes, take, IfOk, OnOk};
ghost use Rattle.std.specs.Fmt.{signed_decimal};
ghost use Rattle.std.specs.List.{flat_map, list_all};
ghost use Rattle.pc_file.specs.Limits.{IsFile};
ghost use Rattle.pc_file.specs.PrintedForm.{cost_line, printed, rule_line, value_line, variable_line, with_feed};
ghost use Rattle.pc_names.specs.Name.{is_name};
ghost use Rattle.pc_print.specs.Nameable.{is_named};
ghost use Rattle.pc_text.specs.Named.{has_names};
ghost use Rattle.pc_text.specs.Spells.{Spells};

use pc_base::{NoMemory, Text};
use pc_file::{File, Rule, Value, Variable};
use pc_names::Name;
use pc_print::push_rule;
use std::alloc::Global;

/// The printed form of a file: its statements in order, each a line of words parted by one space. No command prints one
/// yet.
#[tactic(auto, using(crate::proofs::PrintedSpells::written_spells))]
pub fn write_file(alloc: Global, file: &File) -> Result<Text, NoMemory>
    ensures exact { IfOk result (λ text. text ≡ printed file.now) }
    // Reading it gives the file again, since a text spells one file at most.
    ensures spells { IfOk result (λ text. Spells text file.now) }
{
    written(alloc, file)
}

/// The printed form, with what is seen of the file where it is written.
#[tactic(auto, using(crate::proofs::PrintedLines::printed_parts, crate::proofs::PrintedLines::file_named))]
fn written(alloc: Global, file: &File) -> Result<Text, NoMemory>
    ensures exact { IfOk result (λ text. text ≡ printed file.now) }
    ensures limits { OnOk result (IsFile file.now) }
    ensures names { OnOk result (has_names file.now ≡ true) }
{
    let mut text = Text::new(alloc);
    text.extend_from_slice(b"product 1\n")?;
    push_costs(&mut text, file.costs())?;
    push_variables(&mut text, file.costs().len(), file.variables())?;
    push_rules(&mut text, file.variables(), file.rules())?;
    text.extend_from_slice(b"end\n")?;
    Ok(text)
}

/// The line of each cost.
fn push_costs(text: &mut Text, costs: &[Name]) -> Result<(), NoMemory>
    ensures text { OnOk result (text.new ≡ text.old ++ flat_map (λ name. with_feed (cost_line name)) costs.now) }
    ensures names { OnOk result (list_all is_name costs.now ≡ true) }
{
    for cost in costs {
        text.extend_from_slice(b"cost ")?;
        text.extend_from_slice(cost.as_bytes())?;
        text.push(b'\n')?;
    }
    Ok(())
}

/// The lines of each variable in a file of so many costs.
fn push_variables(text: &mut Text, costs: usize, variables: &[Variable]) -> Result<(), NoMemory>
    ensures text { OnOk result (text.new ≡ text.old
        ++ flat_map (λ variable. with_feed (variable_line variable.name) ++ flat_map (λ value. with_feed (value_line costs value)) variable.values) variables.now) }
    ensures names { OnOk result (list_all is_named variables.now ≡ true) }
{
    for variable in variables {
        push_variable(text, costs, variable)?;
    }
    Ok(())
}

/// The line of a variable, and those of its values.
#[tactic(auto, using(crate::proofs::PrintedLines::named_parts))]
fn push_variable(text: &mut Text, costs: usize, variable: &Variable) -> Result<(), NoMemory>
    ensures text { OnOk result (text.new ≡ text.old
        ++ (with_feed (variable_line variable.now.name) ++ flat_map (λ value. with_feed (value_line costs value)) variable.now.values)) }
    ensures names { OnOk result (is_named variable.now ≡ true) }
{
    text.extend_from_slice(b"variable ")?;
    text.extend_from_slice(variable.name.as_bytes())?;
    text.push(b'\n')?;
    push_values(text, costs, variable.values.as_slice())
}

/// The line of each value.
fn push_values(text: &mut Text, costs: usize, values: &[Value]) -> Result<(), NoMemory>
    ensures text { OnOk result (text.new ≡ text.old ++ flat_map (λ value. with_feed (value_line costs value)) values.now) }
    ensures names { OnOk result (list_all (λ value. is_name value.name) values.now ≡ true) }
{
    for value in values {
        push_value(text, costs, value)?;
    }
    Ok(())
}

fn push_value(text: &mut Text, costs: usize, value: &Value) -> Result<(), NoMemory>
    ensures text { OnOk result (text.new ≡ text.old ++ with_feed (value_line costs value.now)) }
    ensures name { OnOk result (is_name value.now.name ≡ true) }
{
    text.extend_from_slice(b"value ")?;
    text.extend_from_slice(value.name.as_bytes())?;
    push_numbers(text, costs, value)?;
    text.push(b'\n')
}

/// As many of the costs of a value as there are, each after a space.
fn push_numbers(text: &mut Text, costs: usize, value: &Value) -> Result<(), NoMemory>
    ensures { OnOk result (text.new ≡ text.old
        ++ flat_map (λ word. codes " " ++ word) (take costs (signed_decimal value.now.first ∷ signed_decimal value.now.second ∷ []))) }
{
    if costs >= 1 {
        text.push(b' ')?;
        text.push_signed(value.first)?;
    }
    if costs >= 2 {
        text.push(b' ')?;
        text.push_signed(value.second)?;
    }
    Ok(())
}

/// The line of each rule, with the names of the variables.
fn push_rules(text: &mut Text, variables: &[Variable], rules: &[Rule]) -> Result<(), NoMemory>
    ensures { OnOk result (text.new ≡ text.old ++ flat_map (λ rule. with_feed (rule_line variables.now rule)) rules.now) }
{
    for rule in rules {
        text.extend_from_slice(b"rule ")?;
        push_rule(text, variables, rule)?;
        text.push(b'\n')?;
    }
    Ok(())
}
