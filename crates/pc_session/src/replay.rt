//! What a session keeps and drops, item by item, on its way to another version.

ghost use Rattle.std.specs.Prelude.{◌≡◌, ◌≢◌, Err, OnOk};
ghost use Rattle.pc_domains.specs.declared.board_fault.BoardFault.TheVariants.{NoMemory};
ghost use Rattle.pc_session.specs.Moving.{replay_after};

use pc_calls::{DropList, Dropped};
use pc_domains::{Board, BoardFault};

/// The board of what was kept so far, and what was dropped.
#[derive(Debug, Drop)]
pub(crate) struct Replay {
    pub(crate) board: Board,
    pub(crate) dropped: DropList,
}

/// An item is kept where a board was made with it, and else dropped.
pub(crate) fn keep(
    replay: &mut Replay,
    made: Result<Board, BoardFault>,
    item: Dropped,
) -> Result<(), pc_base::NoMemory>
    ensures replay { OnOk result (replay.new ≡ replay_after made item replay.old) }
    ensures memory { OnOk result (made ≢ Err NoMemory) }
{
    match made {
        Ok(board) => {
            replay.board = board;
            Ok(())
        }
        Err(BoardFault::NoMemory) => Err(pc_base::NoMemory),
        Err(BoardFault::LabelLimit { .. } | BoardFault::NoFit) => replay.dropped.push(item),
    }
}
