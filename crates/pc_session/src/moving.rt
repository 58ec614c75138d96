//! A move of all that a session asks to another version.

ghost use Rattle.std.specs.Prelude.{◌≡◌, [], Ok, IfOk, IfErr};
ghost use Rattle.pc_calls.specs.Carry.{carry_possible};
ghost use Rattle.pc_domains.specs.Boards.{IsBoardOf};
ghost use Rattle.pc_session.specs.Moving.{IsAskable, IsMoveFault};
ghost use Rattle.pc_session.specs.Next.{asked_by};

use crate::boards::canonical_of;
use crate::carrying::{carry_bounds, carry_choices};
use crate::move_fault::MoveFault;
use pc_build::Version;
use pc_diagram::{Bounds, Choices, Steps};
use pc_domains::Board;
use pc_file::File;
use std::alloc::Global;
use std::sync::ledger::Ledger;

/// The board of the target with all choices and bounds on a file, carried over by names.
pub(crate) fn moved_board<L: Ledger>(
    alloc: Global,
    file: &File,
    target: &Version,
    choices: &Choices,
    bounds: &Bounds,
    steps: &mut Steps<L>,
) -> Result<Board, MoveFault>
    requires { IsAskable file.now choices.now bounds.now }
    ensures board { IfOk result (IsBoardOf target.now.diagram target.now.costs) }
    ensures moved { IfOk result (λ board. carry_possible file.now target.now.file (record { choices = choices.now; bounds = bounds.now })
        ≡ Ok (record { selection = asked_by board; dropped = [] })) }
    ensures fault { IfErr result (IsMoveFault (carry_possible file.now target.now.file (record { choices = choices.now; bounds = bounds.now }))) }
{
    canonical_of(target);
    let target_file = target.file.file();
    let choices = carry_choices(alloc, file, target_file, choices)?;
    let bounds = carry_bounds(file, target_file, bounds)?;
    let (diagram, costs) = (&target.diagram, &target.costs);
    Ok(Board::new(alloc, diagram, costs, &choices, &bounds, steps)?)
}
