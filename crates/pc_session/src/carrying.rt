//! What a session asks of one product, carried over by names to another.

ghost use Rattle.std.specs.Prelude.{◌≡◌, Ok, IfOk, IfErr};
ghost use Rattle.pc_calls.specs.Carry.{carry_bound, carry_bounds, carry_choice, carry_choices};
ghost use Rattle.pc_diagram.specs.NodePaths.{AreChoicesOf, IsChoiceOf};
ghost use Rattle.pc_domains.specs.Sides.{AreDistinctOf};
ghost use Rattle.pc_file.specs.Full.{full_domains};
ghost use Rattle.pc_file.specs.Limits.{IsFile};
ghost use Rattle.pc_session.specs.Costs.{AreOnCosts, IsOnCost};
ghost use Rattle.pc_session.specs.Moving.{IsMoveFault};

use crate::move_fault::MoveFault;
use crate::naming::{cost_name, value_name, variable_name};
use pc_calls::Outcome;
use pc_diagram::{Bounds, Choice, Choices, Which};
use pc_file::File;
use std::alloc::Global;

/// The choice of the variable and the value that have the same names in the target, or the name that is lost.
pub(crate) fn carry_choice(file: &File, target: &File, choice: Choice) -> Result<Choice, Outcome>
    requires { IsChoiceOf (full_domains file.now) choice }
    ensures carried { result ≡ carry_choice file.now target.now choice }
    ensures limits { IsFile file.now }
{
    let name = variable_name(file, choice.variable);
    let Some(variable) = target.variable(&name) else {
        return Err(Outcome::Lost { name });
    };
    let name = value_name(file, choice.variable, choice.value);
    match target.value(variable, &name) {
        Some(value) => Ok(Choice { variable, value }),
        None => Err(Outcome::Lost { name }),
    }
}

/// All choices in order, or the first name that is lost.
pub(crate) fn carry_choices(
    alloc: Global,
    file: &File,
    target: &File,
    choices: &Choices,
) -> Result<Choices, MoveFault>
    requires { AreDistinctOf (full_domains file.now) choices.now }
    ensures carried { IfOk result (λ carried. carry_choices file.now target.now choices.now ≡ Ok carried) }
    ensures choices_of { IfOk result (AreChoicesOf (full_domains target.now)) }
    ensures fault { IfErr result (IsMoveFault (carry_choices file.now target.now choices.now)) }
{
    let mut carried = Choices::new(alloc);
    for choice in choices.as_slice() {
        let Choice { variable, value } = carry_choice(file, target, *choice)?;
        carried = carried.with(alloc, variable, value)?;
    }
    Ok(carried)
}

/// These bounds with one more, on the cost that has the same name in the target, or the name that is lost.
fn carry_bound(
    file: &File,
    target: &File,
    which: Which,
    bound: Option<i64>,
    bounds: Bounds,
) -> Result<Bounds, Outcome>
    requires { IsOnCost file.now which bound }
    ensures { result ≡ carry_bound file.now target.now which bound bounds }
{
    let Some(most) = bound else {
        return Ok(bounds);
    };
    let name = cost_name(file, which);
    match target.cost(&name) {
        Some(carried) => Ok(bounds.with(carried, Some(most))),
        None => Err(Outcome::Lost { name }),
    }
}

/// Both bounds, or the first name that is lost.
pub(crate) fn carry_bounds(file: &File, target: &File, bounds: &Bounds) -> Result<Bounds, Outcome>
    requires { AreOnCosts file.now bounds.now }
    ensures { result ≡ carry_bounds file.now target.now bounds.now }
{
    let first = carry_bound(file, target, Which::First, bounds.first, Bounds::none())?;
    carry_bound(file, target, Which::Second, bounds.second, first)
}
