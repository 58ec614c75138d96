//! The printed form of a rule.

ghost use Rattle.std.specs.Prelude.{◌≡◌, ◌++◌, codes, decimal, OnOk, OnErr};
ghost use Rattle.std.specs.List.{join_by};
ghost use Rattle.pc_file.specs.declared.variable.Variable.{Variable};
ghost use Rattle.pc_file.specs.declared.rule.Rule.TheOpen.{OneOf, Same, Table};
ghost use Rattle.pc_base.specs.Grown.{HasGrown};
ghost use Rattle.pc_file.specs.PrintedRule.{printed_variable, printed_value, text_of, printed_in_place, printed_rule};

use crate::names::{push_rows, push_value, push_values, push_variable, push_variables};
use pc_base::{NoMemory, Sequence, Text};
use pc_file::{Rule, Variable, strength};

/// Puts the printed form of a rule at the end of a text, with the names of the variables and values that it is of.
/// Want of memory leaves the text as it was.
pub fn push_rule(text: &mut Text, variables: &[Variable], rule: &Rule) -> Result<(), NoMemory>
    ensures ok { OnOk result (text.new ≡ text.old ++ printed_rule variables.now rule.now) }
    ensures err { OnErr result (text.new ≡ text.old) }
{
    let before = text.len();
    let done = push_form(text, variables, rule);
    if done.is_err() {
        text.truncate(before);
    }
    done
}

/// The same, which may leave a part of the rule in the text where memory is wanted.
#[cycle(writing)]
#[tactic(auto, using(pc_base::proofs::GrownLemmas::grown_same, pc_base::proofs::GrownLemmas::grown_on))]
fn push_form(text: &mut Text, variables: &[Variable], rule: &Rule) -> Result<(), NoMemory>
    ensures ok { OnOk result (text.new ≡ text.old ++ printed_rule variables.now rule.now) }
    ensures err { OnErr result (HasGrown text.old text.new) }
{
    match rule {
        Rule::Is { variable, value } => push_comparison(text, variables, *variable, b"=", *value),
        Rule::IsNot { variable, value } => {
            push_comparison(text, variables, *variable, b"!=", *value)
        }
        Rule::OneOf { variable, values } => {
            push_one_of(text, variables, *variable, values.as_slice())
        }
        Rule::Not(inner) => {
            text.extend_from_slice(b"not ")?;
            push_in_place(text, variables, 4, inner.get())
        }
        Rule::And(members) => push_members(text, variables, 3, b" and ", members.as_slice()),
        Rule::Or(members) => push_members(text, variables, 2, b" or ", members.as_slice()),
        Rule::Implies(premise, consequence) => {
            push_in_place(text, variables, 1, premise.get())?;
            text.extend_from_slice(b" => ")?;
            push_in_place(text, variables, 1, consequence.get())
        }
        Rule::Same(first, second) => push_same(text, variables, *first, *second),
        Rule::AtMost { most, members } => {
            push_at_most(text, variables, *most, members.as_slice())
        }
        Rule::Table {
            variables: these,
            rows,
        } => push_table(text, variables, these.as_slice(), rows.as_slice()),
    }
}

/// The rule in a place that asks for a strength.
#[cycle(writing)]
#[tactic(auto, using(pc_base::proofs::GrownLemmas::grown_same, pc_base::proofs::GrownLemmas::grown_on))]
fn push_in_place(
    text: &mut Text,
    variables: &[Variable],
    asked: u8,
    rule: &Rule,
) -> Result<(), NoMemory>
    ensures ok { OnOk result (text.new ≡ text.old ++ printed_in_place asked variables.now rule.now) }
    ensures err { OnErr result (HasGrown text.old text.new) }
{
    if strength(rule) >= asked {
        return push_form(text, variables, rule);
    }
    text.extend_from_slice(b"(")?;
    push_form(text, variables, rule)?;
    text.extend_from_slice(b")")
}

/// Members in places of one kind, with something between them.
#[cycle(writing)]
#[tactic(auto, using(pc_base::proofs::GrownLemmas::grown_same, pc_base::proofs::GrownLemmas::grown_on))]
fn push_members(
    text: &mut Text,
    variables: &[Variable],
    asked: u8,
    between: &[u8],
    members: &[Rule],
) -> Result<(), NoMemory>
    ensures ok { OnOk result (text.new ≡ text.old ++ join_by (printed_in_place asked variables.now) between.now members.now) }
    ensures err { OnErr result (HasGrown text.old text.new) }
{
    let Some((first, others)) = members.split_first() else {
        return Ok(());
    };
    push_in_place(text, variables, asked, first)?;
    for member in others {
        text.extend_from_slice(between)?;
        push_in_place(text, variables, asked, member)?;
    }
    Ok(())
}

#[cycle(writing)]
#[tactic(auto, using(pc_base::proofs::GrownLemmas::grown_same, pc_base::proofs::GrownLemmas::grown_on))]
fn push_at_most(
    text: &mut Text,
    variables: &[Variable],
    most: u32,
    members: &[Rule],
) -> Result<(), NoMemory>
    ensures ok { OnOk result (text.new ≡ text.old
        ++ (codes "atmost " ++ decimal most ++ codes " (" ++ join_by (printed_in_place 0 variables.now) (codes ", ") members.now ++ codes ")")) }
    ensures err { OnErr result (HasGrown text.old text.new) }
{
    text.extend_from_slice(b"atmost ")?;
    text.push_unsigned(u64::from(most))?;
    text.extend_from_slice(b" (")?;
    push_members(text, variables, 0, b", ", members)?;
    text.extend_from_slice(b")")
}

#[tactic(auto, using(pc_base::proofs::GrownLemmas::grown_same, pc_base::proofs::GrownLemmas::grown_on))]
fn push_comparison(
    text: &mut Text,
    variables: &[Variable],
    variable: u32,
    sign: &[u8],
    value: u32,
) -> Result<(), NoMemory>
    ensures ok { OnOk result (text.new ≡ text.old ++ (printed_variable variables.now variable ++ sign.now ++ printed_value variables.now variable value)) }
    ensures err { OnErr result (HasGrown text.old text.new) }
{
    push_variable(text, variables, variable)?;
    text.extend_from_slice(sign)?;
    push_value(text, variables, variable, value)
}

#[tactic(auto, using(pc_base::proofs::GrownLemmas::grown_same, pc_base::proofs::GrownLemmas::grown_on))]
fn push_one_of(
    text: &mut Text,
    variables: &[Variable],
    variable: u32,
    values: &[u32],
) -> Result<(), NoMemory>
    ensures ok { OnOk result (text.new ≡ text.old ++ text_of variables.now (OneOf variable values.now)) }
    ensures err { OnErr result (HasGrown text.old text.new) }
{
    push_variable(text, variables, variable)?;
    text.extend_from_slice(b" in {")?;
    push_values(text, variables, variable, values)?;
    text.extend_from_slice(b"}")
}

#[tactic(auto, using(pc_base::proofs::GrownLemmas::grown_same, pc_base::proofs::GrownLemmas::grown_on))]
fn push_same(
    text: &mut Text,
    variables: &[Variable],
    first: u32,
    second: u32,
) -> Result<(), NoMemory>
    ensures ok { OnOk result (text.new ≡ text.old ++ text_of variables.now (Same first second)) }
    ensures err { OnErr result (HasGrown text.old text.new) }
{
    text.extend_from_slice(b"same(")?;
    push_variable(text, variables, first)?;
    text.extend_from_slice(b", ")?;
    push_variable(text, variables, second)?;
    text.extend_from_slice(b")")
}

#[tactic(auto, using(pc_base::proofs::GrownLemmas::grown_same, pc_base::proofs::GrownLemmas::grown_on))]
fn push_table(
    text: &mut Text,
    variables: &[Variable],
    these: &[u32],
    rows: &[Sequence<u32>],
) -> Result<(), NoMemory>
    ensures ok { OnOk result (text.new ≡ text.old ++ text_of variables.now (Table these.now rows.now)) }
    ensures err { OnErr result (HasGrown text.old text.new) }
{
    text.extend_from_slice(b"table (")?;
    push_variables(text, variables, these)?;
    text.extend_from_slice(b") {")?;
    push_rows(text, variables, these, rows)?;
    text.extend_from_slice(b"}")
}
