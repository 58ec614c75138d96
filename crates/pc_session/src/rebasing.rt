//! A move of what a session asks to another version: all of it, or as much as may be kept.

ghost use Rattle.std.specs.Prelude.{◌≡◌, ◌<◌, Ok, IfOk, IfErr};
ghost use Rattle.pc_calls.specs.Carry.{moved_to};
ghost use Rattle.pc_domains.specs.Boards.{IsBoardOf};
ghost use Rattle.pc_session.specs.Moving.{IsAskable, IsMoveFault, carried_by};

use crate::move_fault::MoveFault;
use crate::moving::moved_board;
use crate::replay::Replay;
use crate::replaying::replayed;
use pc_build::Version;
use pc_calls::DropList;
use pc_diagram::{Bounds, Choices, Steps};
use pc_file::File;
use std::alloc::Global;
use std::sync::ledger::{Blank, Ledger};

/// What is asked at the target in place of choices and bounds on a file.
pub(crate) fn moved_to<L: Ledger>(
    alloc: Global,
    file: &File,
    target: &Version,
    choices: &Choices,
    bounds: &Bounds,
    dropping: bool,
    blank: Blank,
) -> Result<Replay, MoveFault>
    requires name { blank.name ≡ L.name }
    requires parts { blank.parts ≡ L.parts }
    requires some { 0 < blank.parts }
    requires asked { IsAskable file.now choices.now bounds.now }
    ensures board { IfOk result (λ moved. IsBoardOf target.now.diagram target.now.costs moved.board) }
    ensures moved { IfOk result (λ moved. moved_to dropping file.now target.now.file (record { choices = choices.now; bounds = bounds.now }) ≡ Ok (carried_by moved)) }
    ensures fault { IfErr result (IsMoveFault (moved_to dropping file.now target.now.file (record { choices = choices.now; bounds = bounds.now }))) }
{
    let mut steps = Steps::<L>::new(blank);
    if dropping {
        return Ok(replayed(alloc, file, target, choices, bounds, &mut steps)?);
    }
    Ok(Replay {
        board: moved_board(alloc, file, target, choices, bounds, &mut steps)?,
        dropped: DropList::new(alloc),
    })
}
