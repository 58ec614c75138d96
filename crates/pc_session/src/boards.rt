//! The boards of sessions.

ghost use Rattle.std.specs.Prelude.{◌≡◌, ◌≤◌, ◌+◌, length, IfOk};
ghost use Rattle.pc_calls.specs.Selection.{free, shown};
ghost use Rattle.pc_diagram.specs.Diagram.{IsCanonical};
ghost use Rattle.pc_domains.specs.Boards.{IsBoardOf};
ghost use Rattle.pc_domains.specs.Slots.{slots_before};
ghost use Rattle.pc_session.specs.Next.{asked_by};

use pc_base::NoMemory;
use pc_build::Version;
use pc_diagram::{Bounds, Choices, Listing, Steps};
use pc_domains::Board;
use std::alloc::Global;
use std::sync::ledger::Ledger;

/// What every version keeps, told of this one: its diagram is canonical. It does nothing at run time.
pub(crate) fn canonical_of(version: &Version)
    ensures { IsCanonical version.now.diagram }
{
    let _ = version.diagram.domains();
}

/// The board of a version without choices and bounds.
pub(crate) fn free_board<L: Ledger>(
    alloc: Global,
    version: &Version,
    steps: &mut Steps<L>,
) -> Result<Board, NoMemory>
    ensures board { IfOk result (IsBoardOf version.now.diagram version.now.costs) }
    ensures free { IfOk result (λ board. asked_by board ≡ free) }
{
    let choices = Choices::new(alloc);
    let (diagram, costs) = (&version.diagram, &version.costs);
    match Board::new(alloc, diagram, costs, &choices, &Bounds::none(), steps) {
        Ok(board) => Ok(board),
        // Without bounds there is no limit, and every word of the version fits.
        Err(_) => Err(NoMemory),
    }
}

/// The listing of a version's board.
pub(crate) fn listing_of<L: Ledger>(
    alloc: Global,
    version: &Version,
    board: &Board,
    steps: &mut Steps<L>,
) -> Result<Listing, NoMemory>
    requires board { IsBoardOf version.now.diagram version.now.costs board.now }
    ensures listing { IfOk result (λ listing. listing ≡ shown version.now.file (asked_by board.now)) }
    ensures steps { steps.new ≤ steps.old + slots_before version.now.diagram (length version.now.diagram.domains) }
{
    board.listing(alloc, &version.diagram, &version.costs, steps)
}
