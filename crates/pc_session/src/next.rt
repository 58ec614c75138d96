//! What a session's call comes to.

ghost use Rattle.std.specs.Prelude.{◌≡◌, ◌≤◌, ◌+◌, length, IfOk};
ghost use Rattle.pc_domains.specs.Boards.{IsBoardOf};
ghost use Rattle.pc_domains.specs.Slots.{slots_before};
ghost use Rattle.pc_session.specs.Next.{IsLimitOf, IsMovedTo, answer_by, board_by};

use crate::answer::Answer;
use crate::boards::listing_of;
use pc_base::NoMemory;
use pc_build::Version;
use pc_calls::Outcome;
use pc_diagram::{Listing, Steps};
use pc_domains::{Board, BoardFault};
use std::alloc::Global;
use std::sync::ledger::Ledger;

/// What is asked after a call, or that the call was refused.
#[derive(Debug, Drop)]
pub(crate) enum Next {
    /// The same as before, with its listing.
    Same(Listing),
    /// Something else: its board and its listing.
    Moved { board: Board, listing: Listing },
    Refused(Outcome),
}

/// A call that leaves this board.
pub(crate) fn moved<L: Ledger>(
    alloc: Global,
    version: &Version,
    board: Board,
    steps: &mut Steps<L>,
) -> Result<Next, NoMemory>
    requires board { IsBoardOf version.now.diagram version.now.costs board }
    ensures moved { IfOk result (IsMovedTo version.now board) }
    ensures steps { steps.new ≤ steps.old + slots_before version.now.diagram (length version.now.diagram.domains) }
{
    let listing = listing_of(alloc, version, &board, steps)?;
    Ok(Next::Moved { board, listing })
}

/// The refusal by a board's fault: the limit, where it tells one.
pub(crate) fn limited(fault: BoardFault) -> Result<Next, NoMemory>
    ensures { IfOk result (IsLimitOf fault) }
{
    match fault {
        BoardFault::LabelLimit { side, layer } => {
            Ok(Next::Refused(Outcome::LabelLimit { side, layer }))
        }
        // That none fits is told where it may come, and comes nowhere else.
        BoardFault::NoFit | BoardFault::NoMemory => Err(NoMemory),
    }
}

/// The answer to a call. The board moves on to what is asked then.
pub(crate) fn answered(board: &mut Board, next: Next) -> Answer
    ensures answer { result ≡ answer_by next }
    ensures board { board.new ≡ board_by board.old next }
{
    match next {
        Next::Same(listing) => Answer::done(listing),
        Next::Moved {
            board: moved,
            listing,
        } => {
            *board = moved;
            Answer::done(listing)
        }
        Next::Refused(refusal) => Answer::refused(refusal),
    }
}
