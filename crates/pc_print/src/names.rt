//! Names of variables and of values, and lists of them, in a printed rule.

ghost use Rattle.std.specs.Prelude.{◌≡◌, ◌++◌, codes, OnOk, OnErr};
ghost use Rattle.std.specs.List.{flat_map, join_by, zip};
ghost use Rattle.pc_base.specs.Grown.{HasGrown};
ghost use Rattle.pc_file.specs.PrintedRule.{printed_variable, printed_value, printed_row};

use pc_base::{NoMemory, Sequence, Text};
use pc_file::Variable;

/// The names of variables, with a comma and a space between them.
#[tactic(auto, using(pc_base::proofs::GrownLemmas::grown_same, pc_base::proofs::GrownLemmas::grown_on))]
pub fn push_variables(
    text: &mut Text,
    variables: &[Variable],
    these: &[u32],
) -> Result<(), NoMemory>
    ensures ok { OnOk result (text.new ≡ text.old ++ join_by (printed_variable variables.now) (codes ", ") these.now) }
    ensures err { OnErr result (HasGrown text.old text.new) }
{
    let Some((first, others)) = these.split_first() else {
        return Ok(());
    };
    push_variable(text, variables, *first)?;
    for variable in others {
        text.extend_from_slice(b", ")?;
        push_variable(text, variables, *variable)?;
    }
    Ok(())
}

/// The names of values of one variable, with a comma and a space between them.
#[tactic(auto, using(pc_base::proofs::GrownLemmas::grown_same, pc_base::proofs::GrownLemmas::grown_on))]
pub fn push_values(
    text: &mut Text,
    variables: &[Variable],
    variable: u32,
    values: &[u32],
) -> Result<(), NoMemory>
    ensures ok { OnOk result (text.new ≡ text.old ++ join_by (printed_value variables.now variable) (codes ", ") values.now) }
    ensures err { OnErr result (HasGrown text.old text.new) }
{
    let Some((first, others)) = values.split_first() else {
        return Ok(());
    };
    push_value(text, variables, variable, *first)?;
    for value in others {
        text.extend_from_slice(b", ")?;
        push_value(text, variables, variable, *value)?;
    }
    Ok(())
}

/// The rows of a table, with a comma and a space between them.
#[tactic(auto, using(pc_base::proofs::GrownLemmas::grown_same, pc_base::proofs::GrownLemmas::grown_on))]
pub fn push_rows(
    text: &mut Text,
    variables: &[Variable],
    these: &[u32],
    rows: &[Sequence<u32>],
) -> Result<(), NoMemory>
    ensures ok { OnOk result (text.new ≡ text.old ++ join_by (printed_row variables.now these.now) (codes ", ") rows.now) }
    ensures err { OnErr result (HasGrown text.old text.new) }
{
    let Some((first, others)) = rows.split_first() else {
        return Ok(());
    };
    push_row(text, variables, these, first.as_slice())?;
    for row in others {
        text.extend_from_slice(b", ")?;
        push_row(text, variables, these, row.as_slice())?;
    }
    Ok(())
}

/// A row of a table: the names of values, each of its own variable, with a space between them.
#[tactic(auto, using(pc_base::proofs::GrownLemmas::grown_same, pc_base::proofs::GrownLemmas::grown_on))]
fn push_row(
    text: &mut Text,
    variables: &[Variable],
    these: &[u32],
    row: &[u32],
) -> Result<(), NoMemory>
    ensures ok { OnOk result (text.new ≡ text.old ++ printed_row variables.now these.now row.now) }
    ensures err { OnErr result (HasGrown text.old text.new) }
{
    let Some((variable, these)) = these.split_first() else {
        return Ok(());
    };
    let Some((value, row)) = row.split_first() else {
        return Ok(());
    };
    push_value(text, variables, *variable, *value)?;
    push_more_of_row(text, variables, these, row)
}

/// The values of a row after the first, each after a space.
#[tactic(auto, using(pc_base::proofs::GrownLemmas::grown_same, pc_base::proofs::GrownLemmas::grown_on))]
fn push_more_of_row(
    text: &mut Text,
    variables: &[Variable],
    these: &[u32],
    row: &[u32],
) -> Result<(), NoMemory>
    ensures ok { OnOk result (text.new ≡ text.old ++ flat_map (λ p. codes " " ++ printed_value variables.now p.0 p.1) (zip these.now row.now)) }
    ensures err { OnErr result (HasGrown text.old text.new) }
{
    for (variable, value) in these.iter().zip(row) {
        text.push(b' ')?;
        push_value(text, variables, *variable, *value)?;
    }
    Ok(())
}

/// The name of a variable, by its position.
#[tactic(auto, using(pc_base::proofs::GrownLemmas::grown_same, pc_base::proofs::GrownLemmas::grown_on))]
pub fn push_variable(text: &mut Text, variables: &[Variable], variable: u32) -> Result<(), NoMemory>
    ensures ok { OnOk result (text.new ≡ text.old ++ printed_variable variables.now variable) }
    ensures err { OnErr result (HasGrown text.old text.new) }
{
    match variables.get(variable as usize) {
        Some(variable) => text.extend_from_slice(variable.name.as_bytes()),
        None => Ok(()),
    }
}

/// The name of a value of a variable, by their positions.
#[tactic(auto, using(pc_base::proofs::GrownLemmas::grown_same, pc_base::proofs::GrownLemmas::grown_on))]
pub fn push_value(
    text: &mut Text,
    variables: &[Variable],
    variable: u32,
    value: u32,
) -> Result<(), NoMemory>
    ensures ok { OnOk result (text.new ≡ text.old ++ printed_value variables.now variable value) }
    ensures err { OnErr result (HasGrown text.old text.new) }
{
    let Some(variable) = variables.get(variable as usize) else {
        return Ok(());
    };
    match variable.values.get(value as usize) {
        Some(value) => text.extend_from_slice(value.name.as_bytes()),
        None => Ok(()),
    }
}
