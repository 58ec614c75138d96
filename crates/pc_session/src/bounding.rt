//! What bound and unbound come to.

ghost use Rattle.std.specs.Prelude.{◌≡◌, ◌<◌, [], None, Some, IfOk};
ghost use Rattle.pc_calls.specs.LabelLimit.{label_limit};
ghost use Rattle.pc_calls.specs.Selection.{bound, bound_at, fitting_words, unbound, unbound_at, with_bound};
ghost use Rattle.pc_domains.specs.Boards.{IsBoardOf};
ghost use Rattle.pc_session.specs.Next.{IsNext, asked_by};

use crate::next::{Next, limited, moved};
use pc_base::NoMemory;
use pc_build::Version;
use pc_calls::Outcome;
use pc_diagram::{Steps, Which};
use pc_domains::{Board, BoardFault, least};
use pc_names::Name;
use std::alloc::Global;
use std::sync::ledger::{Blank, Ledger};

/// A cost gets a bound, by its name.
pub(crate) fn bound<L: Ledger>(
    alloc: Global,
    version: &Version,
    board: &Board,
    cost: &Name,
    most: i64,
    blank: Blank,
) -> Result<Next, NoMemory>
    requires name { blank.name ≡ L.name }
    requires parts { blank.parts ≡ L.parts }
    requires some { 0 < blank.parts }
    requires board { IsBoardOf version.now.diagram version.now.costs board.now }
    ensures { IfOk result (IsNext version.now (asked_by board.now) (bound cost.now most version.now.file (asked_by board.now))) }
{
    let mut steps = Steps::<L>::new(blank);
    match version.file.file().cost(cost) {
        Some(which) => bound_at(alloc, version, board, which, most, &mut steps),
        None => Ok(Next::Refused(Outcome::NoCost)),
    }
}

/// A cost gets a bound.
fn bound_at<L: Ledger>(
    alloc: Global,
    version: &Version,
    board: &Board,
    which: Which,
    most: i64,
    steps: &mut Steps<L>,
) -> Result<Next, NoMemory>
    requires board { IsBoardOf version.now.diagram version.now.costs board.now }
    ensures { IfOk result (IsNext version.now (asked_by board.now) (bound_at which most version.now.file (asked_by board.now))) }
{
    let (diagram, costs) = (&version.diagram, &version.costs);
    let bounds = board.bounds.with(which, Some(most));
    match Board::new(alloc, diagram, costs, &board.choices, &bounds, steps) {
        Ok(board) => moved(alloc, version, board, steps),
        Err(BoardFault::NoFit) => too_tight(alloc, version, board, which, most, steps),
        Err(fault) => limited(fault),
    }
}

/// The least of a cost without its bound, where no word fits with this one.
fn too_tight<L: Ledger>(
    alloc: Global,
    version: &Version,
    board: &Board,
    which: Which,
    most: i64,
    steps: &mut Steps<L>,
) -> Result<Next, NoMemory>
    requires board { IsBoardOf version.now.diagram version.now.costs board.now }
    requires within { let asked = with_bound which (Some most) (asked_by board.now) in
        label_limit version.now.file asked.choices asked.bounds ≡ None }
    requires none { fitting_words version.now.file (with_bound which (Some most) (asked_by board.now)) ≡ [] }
    ensures { IfOk result (IsNext version.now (asked_by board.now) (bound_at which most version.now.file (asked_by board.now))) }
{
    let (diagram, costs) = (&version.diagram, &version.costs);
    let others = board.bounds.with(which, None);
    match least(alloc, diagram, costs, &board.choices, &others, which, steps) {
        Ok(least) => Ok(Next::Refused(Outcome::TooTight {
            least: least.unwrap_or(0),
        })),
        // The limit doesn't stand, so it isn't told.
        Err(_) => Err(NoMemory),
    }
}

/// The bound on a cost is taken back, by its name.
pub(crate) fn unbound<L: Ledger>(
    alloc: Global,
    version: &Version,
    board: &Board,
    cost: &Name,
    blank: Blank,
) -> Result<Next, NoMemory>
    requires name { blank.name ≡ L.name }
    requires parts { blank.parts ≡ L.parts }
    requires some { 0 < blank.parts }
    requires board { IsBoardOf version.now.diagram version.now.costs board.now }
    ensures { IfOk result (IsNext version.now (asked_by board.now) (unbound cost.now version.now.file (asked_by board.now))) }
{
    let mut steps = Steps::<L>::new(blank);
    match version.file.file().cost(cost) {
        Some(which) => unbound_at(alloc, version, board, which, &mut steps),
        None => Ok(Next::Refused(Outcome::NoCost)),
    }
}

/// The bound on a cost is taken back.
fn unbound_at<L: Ledger>(
    alloc: Global,
    version: &Version,
    board: &Board,
    which: Which,
    steps: &mut Steps<L>,
) -> Result<Next, NoMemory>
    requires board { IsBoardOf version.now.diagram version.now.costs board.now }
    ensures { IfOk result (IsNext version.now (asked_by board.now) (unbound_at which version.now.file (asked_by board.now))) }
{
    if board.bounds.on(which).is_none() {
        return Ok(Next::Refused(Outcome::NotBounded));
    }
    let (diagram, costs) = (&version.diagram, &version.costs);
    let bounds = board.bounds.with(which, None);
    match Board::new(alloc, diagram, costs, &board.choices, &bounds, steps) {
        Ok(board) => moved(alloc, version, board, steps),
        // Where words fit with a bound, some fit without it, and no limit comes that didn't stand.
        Err(_) => Err(NoMemory),
    }
}
