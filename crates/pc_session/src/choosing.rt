//! What choose and retract come to.

ghost use Rattle.std.specs.Prelude.{◌≡◌, ◌<◌, ◌≤◌, ◌+◌, ◌*◌, length, slice_index, IfOk};
ghost use Rattle.pc_calls.specs.Selection.{choose, choose_at, retract, retract_at};
ghost use Rattle.pc_file.specs.Positions.{variable_named};
ghost use Rattle.pc_domains.specs.Boards.{IsBoardOf};
ghost use Rattle.pc_domains.specs.Slots.{slots_before, slots_of};
ghost use Rattle.pc_session.specs.Next.{IsNext, asked_by};
ghost use Rattle.pc_session.specs.Slots.{choose_steps, retract_steps};

use crate::boards::listing_of;
use crate::next::{Next, limited, moved};
use pc_base::NoMemory;
use pc_build::Version;
use pc_calls::Outcome;
use pc_diagram::Steps;
use pc_domains::Board;
use pc_names::Name;
use std::alloc::Global;
use std::sync::ledger::Ledger;

/// A value is chosen for a variable, by their names.
pub(crate) fn choose<L: Ledger>(
    alloc: Global,
    version: &Version,
    board: &Board,
    variable: &Name,
    value: &Name,
    steps: &mut Steps<L>,
) -> Result<Next, NoMemory>
    requires board { IsBoardOf version.now.diagram version.now.costs board.now }
    ensures next { IfOk result (IsNext version.now (asked_by board.now) (choose variable.now value.now version.now.file (asked_by board.now))) }
    ensures steps { steps.new ≤ steps.old + choose_steps version.now.file (variable_named version.now.file variable.now) }
{
    let file = version.file.file();
    let Some(variable) = file.variable(variable) else {
        return Ok(Next::Refused(Outcome::NoVariable));
    };
    let Some(value) = file.value(variable, value) else {
        return Ok(Next::Refused(Outcome::NoValue));
    };
    choose_at(alloc, version, board, variable, value, steps)
}

/// A value is chosen for a variable, by their positions.
fn choose_at<L: Ledger>(
    alloc: Global,
    version: &Version,
    board: &Board,
    variable: u32,
    value: u32,
    steps: &mut Steps<L>,
) -> Result<Next, NoMemory>
    requires variable { variable < length version.now.diagram.domains }
    requires value { value < slice_index version.now.diagram.domains variable }
    requires board { IsBoardOf version.now.diagram version.now.costs board.now }
    ensures next { IfOk result (IsNext version.now (asked_by board.now) (choose_at variable value version.now.file (asked_by board.now))) }
    ensures steps { let diagram = version.now.diagram in
        steps.new ≤ steps.old + (2 * slots_before diagram (length diagram.domains) + 2 * slots_of diagram variable) }
{
    let (diagram, costs) = (&version.diagram, &version.costs);
    if !board.lists(diagram, costs, variable, value, steps) {
        return Ok(Next::Refused(Outcome::NotListed));
    }
    if board.choices.is_chosen(variable) {
        return Ok(Next::Same(listing_of(alloc, version, board, steps)?));
    }
    match board.with_choice(alloc, diagram, costs, variable, value, steps) {
        Ok(board) => moved(alloc, version, board, steps),
        Err(fault) => limited(fault),
    }
}

/// The choice of a variable is taken back, by its name.
pub(crate) fn retract<L: Ledger>(
    alloc: Global,
    version: &Version,
    board: &Board,
    variable: &Name,
    steps: &mut Steps<L>,
) -> Result<Next, NoMemory>
    requires board { IsBoardOf version.now.diagram version.now.costs board.now }
    ensures next { IfOk result (IsNext version.now (asked_by board.now) (retract variable.now version.now.file (asked_by board.now))) }
    ensures steps { steps.new ≤ steps.old + retract_steps version.now.file (variable_named version.now.file variable.now) }
{
    let Some(variable) = version.file.file().variable(variable) else {
        return Ok(Next::Refused(Outcome::NoVariable));
    };
    retract_at(alloc, version, board, variable, steps)
}

/// The choice of a variable is taken back, by its position.
fn retract_at<L: Ledger>(
    alloc: Global,
    version: &Version,
    board: &Board,
    variable: u32,
    steps: &mut Steps<L>,
) -> Result<Next, NoMemory>
    requires variable { variable < length version.now.diagram.domains }
    requires board { IsBoardOf version.now.diagram version.now.costs board.now }
    ensures next { IfOk result (IsNext version.now (asked_by board.now) (retract_at variable version.now.file (asked_by board.now))) }
    ensures steps { let diagram = version.now.diagram in
        steps.new ≤ steps.old + (2 * slots_before diagram (length diagram.domains) + slots_of diagram variable) }
{
    if !board.choices.is_chosen(variable) {
        return Ok(Next::Refused(Outcome::NotChosen));
    }
    match board.without_choice(alloc, &version.diagram, &version.costs, variable, steps) {
        Ok(board) => moved(alloc, version, board, steps),
        Err(fault) => limited(fault),
    }
}
