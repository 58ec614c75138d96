//! A move to another version of as much as a session may keep there.

ghost use Rattle.std.specs.Prelude.{◌≡◌, [], IfOk, OnOk};
ghost use Rattle.pc_calls.specs.Carry.{replay, replay_bound, replay_choice, replay_choices};
ghost use Rattle.pc_diagram.specs.NodePaths.{IsChoiceOf};
ghost use Rattle.pc_domains.specs.Boards.{IsBoardOf};
ghost use Rattle.pc_domains.specs.Sides.{AreDistinctOf};
ghost use Rattle.pc_file.specs.Full.{full_domains};
ghost use Rattle.pc_file.specs.Limits.{IsFile};
ghost use Rattle.pc_session.specs.Costs.{IsOnCost};
ghost use Rattle.pc_session.specs.Moving.{IsAskable, IsNew, carried_by};

use crate::boards::free_board;
use crate::carrying::carry_choice;
use crate::naming::{cost_name, variable_name};
use crate::replay::{Replay, keep};
use pc_base::NoMemory;
use pc_build::Version;
use pc_calls::{DropList, Dropped};
use pc_diagram::{Bounds, Choice, Choices, Steps, Which};
use pc_domains::Board;
use pc_file::File;
use std::alloc::Global;
use std::sync::ledger::Ledger;

/// A bound on a cost of a file, if it is set, is kept at the target or dropped.
fn replay_bound<L: Ledger>(
    alloc: Global,
    file: &File,
    target: &Version,
    which: Which,
    bound: Option<i64>,
    replay: &mut Replay,
    steps: &mut Steps<L>,
) -> Result<(), NoMemory>
    requires bound { IsOnCost file.now which bound }
    requires board { IsBoardOf target.now.diagram target.now.costs replay.old.board }
    ensures board { OnOk result (IsBoardOf target.now.diagram target.now.costs replay.new.board) }
    ensures replayed { OnOk result (carried_by replay.new ≡ replay_bound file.now target.now.file which bound (carried_by replay.old)) }
{
    let Some(most) = bound else {
        return Ok(());
    };
    let name = cost_name(file, which);
    let item = Dropped::Bound(name);
    let Some(carried) = target.file.file().cost(&name) else {
        return replay.dropped.push(item);
    };
    let (diagram, costs) = (&target.diagram, &target.costs);
    let bounds = replay.board.bounds.with(carried, Some(most));
    let made = Board::new(alloc, diagram, costs, &replay.board.choices, &bounds, steps);
    keep(replay, made, item)
}

/// A choice of a value of a file is kept at the target or dropped.
fn replay_choice<L: Ledger>(
    alloc: Global,
    file: &File,
    target: &Version,
    choice: Choice,
    replay: &mut Replay,
    steps: &mut Steps<L>,
) -> Result<(), NoMemory>
    requires choice { IsChoiceOf (full_domains file.now) choice }
    requires new { IsNew file.now target.now.file replay.old.board.choices choice }
    requires board { IsBoardOf target.now.diagram target.now.costs replay.old.board }
    ensures board { OnOk result (IsBoardOf target.now.diagram target.now.costs replay.new.board) }
    ensures replayed { OnOk result (carried_by replay.new ≡ replay_choice file.now target.now.file choice (carried_by replay.old)) }
    ensures limits { IsFile file.now }
{
    let item = Dropped::Choice(variable_name(file, choice.variable));
    let Ok(carried) = carry_choice(file, target.file.file(), choice) else {
        return replay.dropped.push(item);
    };
    let (diagram, costs) = (&target.diagram, &target.costs);
    let Choice { variable, value } = carried;
    let made = replay
        .board
        .with_choice(alloc, diagram, costs, variable, value, steps);
    keep(replay, made, item)
}

/// The choices, in order, are each kept at the target or dropped.
fn replay_choices<L: Ledger>(
    alloc: Global,
    file: &File,
    target: &Version,
    choices: &Choices,
    replay: &mut Replay,
    steps: &mut Steps<L>,
) -> Result<(), NoMemory>
    requires choices { AreDistinctOf (full_domains file.now) choices.now }
    requires none { replay.old.board.choices ≡ [] }
    requires board { IsBoardOf target.now.diagram target.now.costs replay.old.board }
    ensures board { OnOk result (IsBoardOf target.now.diagram target.now.costs replay.new.board) }
    ensures replayed { OnOk result (carried_by replay.new ≡ replay_choices file.now target.now.file choices.now (carried_by replay.old)) }
{
    for choice in choices.as_slice() {
        replay_choice(alloc, file, target, *choice, replay, steps)?;
    }
    Ok(())
}

/// What is kept at the target of choices and bounds on a file: the bounds, then the choices in order, each with what was kept
/// before it.
pub(crate) fn replayed<L: Ledger>(
    alloc: Global,
    file: &File,
    target: &Version,
    choices: &Choices,
    bounds: &Bounds,
    steps: &mut Steps<L>,
) -> Result<Replay, NoMemory>
    requires { IsAskable file.now choices.now bounds.now }
    ensures board { IfOk result (λ kept. IsBoardOf target.now.diagram target.now.costs kept.board) }
    ensures replayed { IfOk result (λ kept. carried_by kept ≡ replay file.now target.now.file (record { choices = choices.now; bounds = bounds.now })) }
{
    let mut kept = Replay {
        board: free_board(alloc, target, steps)?,
        dropped: DropList::new(alloc),
    };
    let (first, second) = (bounds.first, bounds.second);
    replay_bound(alloc, file, target, Which::First, first, &mut kept, steps)?;
    replay_bound(alloc, file, target, Which::Second, second, &mut kept, steps)?;
    replay_choices(alloc, file, target, choices, &mut kept, steps)?;
    Ok(kept)
}
