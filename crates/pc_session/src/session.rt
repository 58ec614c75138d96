//! Sessions.

ghost use Rattle.std.specs.Prelude.{◌≡◌, ◌<◌, ◌≤◌, ◌+◌, Ok, IfOk, OnOk, OnErr};
ghost use Rattle.pc_calls.specs.Carry.{moved_to};
ghost use Rattle.pc_domains.specs.Boards.{IsBoardOf};
ghost use Rattle.pc_file.specs.Positions.{variable_named};
ghost use Rattle.pc_session.specs.Costs.{AreOnCosts};
ghost use Rattle.pc_session.specs.Moving.{carried_by};
ghost use Rattle.pc_session.specs.Next.{asked_by};
ghost use Rattle.pc_calls.specs.Selection.{bound, choose, free, retract, shown, unbound};
ghost use Rattle.pc_session.specs.Slots.{choose_steps, retract_steps};
ghost use Rattle.pc_session.specs.Visit.{session_answer, visit_after};

use crate::answer::Answer;
use crate::boards::{free_board, listing_of};
use crate::move_fault::MoveFault;
use crate::next::answered;
use crate::rebased::Rebased;
use crate::rebasing::moved_to;
use crate::replay::Replay;
use crate::{bounding, choosing};
use pc_base::NoMemory;
use pc_build::{SharedVersion, Version};
use pc_diagram::{Listing, Steps};
use pc_domains::Board;
use pc_file::SharedFile;
use pc_names::Name;
use std::alloc::Global;
use std::marker::{Brand, Model};
use std::sync::ledger::{Blank, Ledger};

/// An open session of a shopper: the board of what it asks of its version.
#[derive(Debug, Drop)]
pub struct Session {
    alloc: Global,
    number: u64,
    version_number: u64,
    version: SharedVersion,
    board: Board,
}

impl Model for Session {
    ghost use Rattle.std.specs.Coded.{codes};
    ghost use Rattle.pc_file.specs.contracts.shared_file.SharedFile as shared;
    ghost use Rattle.pc_domains.specs.Boards.{IsBoardOf};
    ghost use Rattle.pc_session.specs.Costs.{AreOnCosts};
    ghost use Rattle.pc_session.specs.Visit.{Visit};

    ghost Value = { Visit };

    ghost coded = { Prim.hlevel (codes, shared.the_row.coded) };

    ghost view = { λ s. record { number = s.number; version = s.version_number; file = s.version.file; selection = record { choices = s.board.choices; bounds = s.board.bounds } } };

    ghost invariant = { λ s. IsBoardOf s.version.diagram s.version.costs s.board × AreOnCosts s.version.file s.board.bounds };
}

impl Session {
    ghost use Rattle.pc_session.specs.Rebased.{IsRebased};

    /// A session without choices and bounds, and its listing.
    ///
    /// # Errors
    ///
    /// Want of memory.
    pub fn start(
        alloc: Global,
        number: u64,
        version: SharedVersion,
        version_number: u64,
    ) -> Result<(Session, Listing), NoMemory>
        ensures session { IfOk result (λ p. p.0 ≡ record { number = number; version = version_number; file = version.file; selection = free }) }
        ensures listing { IfOk result (λ p. p.1 ≡ shown version.file free) }
    {
        let board = first_board::<Brand>(alloc, version.version(), Blank::new(1))?;
        let session = Session {
            alloc,
            number,
            version_number,
            version,
            board,
        };
        let listing = session.show()?;
        Ok((session, listing))
    }

    /// Its number among its owner's.
    pub fn number(&self) -> u64
        ensures { result ≡ self.now.number }
    {
        self.number
    }

    /// The number of its version.
    pub fn version(&self) -> u64
        ensures { result ≡ self.now.version }
    {
        self.version_number
    }

    /// The file of its version.
    pub fn file(&self) -> &SharedFile
        ensures { result.now ≡ self.now.file }
    {
        &self.version.version().file
    }

    /// The values that still lead to a product, each with the cheapest such product.
    ///
    /// # Errors
    ///
    /// Want of memory.
    pub fn show(&self) -> Result<Listing, NoMemory>
        ensures { IfOk result (λ listing. listing ≡ shown self.now.file self.now.selection) }
    {
        self.show_by::<Brand>(Blank::new(1))
    }

    fn show_by<L: Ledger>(&self, blank: Blank) -> Result<Listing, NoMemory>
        requires name { blank.name ≡ L.name }
        requires parts { blank.parts ≡ L.parts }
        requires some { 0 < blank.parts }
        ensures { IfOk result (λ listing. listing ≡ shown self.now.file self.now.selection) }
    {
        let mut steps = Steps::<L>::new(blank);
        listing_of(self.alloc, self.version.version(), &self.board, &mut steps)
    }

    /// Chooses a value for a variable. A variable that has this value already keeps its place among the choices.
    ///
    /// # Errors
    ///
    /// Want of memory.
    pub fn choose<L: Ledger>(
        &mut self,
        variable: &Name,
        value: &Name,
        steps: &mut Steps<L>,
    ) -> Result<Answer, NoMemory>
        ensures answer { IfOk result (λ answer. answer ≡ session_answer self.old.file (choose variable.now value.now self.old.file self.old.selection)) }
        ensures session { OnOk result (self.new ≡ visit_after self.old (choose variable.now value.now self.old.file self.old.selection)) }
        ensures kept { OnErr result (self.new ≡ self.old) }
        ensures steps { steps.new ≤ steps.old + choose_steps self.old.file (variable_named self.old.file variable.now) }
    {
        let version = self.version.version();
        let next = choosing::choose(self.alloc, version, &self.board, variable, value, steps)?;
        Ok(answered(&mut self.board, next))
    }

    /// Takes back the choice of a variable.
    ///
    /// # Errors
    ///
    /// Want of memory.
    pub fn retract<L: Ledger>(
        &mut self,
        variable: &Name,
        steps: &mut Steps<L>,
    ) -> Result<Answer, NoMemory>
        ensures answer { IfOk result (λ answer. answer ≡ session_answer self.old.file (retract variable.now self.old.file self.old.selection)) }
        ensures session { OnOk result (self.new ≡ visit_after self.old (retract variable.now self.old.file self.old.selection)) }
        ensures kept { OnErr result (self.new ≡ self.old) }
        ensures steps { steps.new ≤ steps.old + retract_steps self.old.file (variable_named self.old.file variable.now) }
    {
        let version = self.version.version();
        let next = choosing::retract(self.alloc, version, &self.board, variable, steps)?;
        Ok(answered(&mut self.board, next))
    }

    /// Bounds a cost: no product that costs more fits. An older bound on it goes.
    ///
    /// # Errors
    ///
    /// Want of memory.
    pub fn bound(&mut self, cost: &Name, most: i64) -> Result<Answer, NoMemory>
        ensures answer { IfOk result (λ answer. answer ≡ session_answer self.old.file (bound cost.now most self.old.file self.old.selection)) }
        ensures session { OnOk result (self.new ≡ visit_after self.old (bound cost.now most self.old.file self.old.selection)) }
        ensures kept { OnErr result (self.new ≡ self.old) }
    {
        let (version, blank) = (self.version.version(), Blank::new(1));
        let next = bounding::bound::<Brand>(self.alloc, version, &self.board, cost, most, blank)?;
        Ok(answered(&mut self.board, next))
    }

    /// Takes back the bound of a cost.
    ///
    /// # Errors
    ///
    /// Want of memory.
    pub fn unbound(&mut self, cost: &Name) -> Result<Answer, NoMemory>
        ensures answer { IfOk result (λ answer. answer ≡ session_answer self.old.file (unbound cost.now self.old.file self.old.selection)) }
        ensures session { OnOk result (self.new ≡ visit_after self.old (unbound cost.now self.old.file self.old.selection)) }
        ensures kept { OnErr result (self.new ≡ self.old) }
    {
        let (version, blank) = (self.version.version(), Blank::new(1));
        let next = bounding::unbound::<Brand>(self.alloc, version, &self.board, cost, blank)?;
        Ok(answered(&mut self.board, next))
    }

    /// The session as it moves to another version of its product, of this number: what it asks is carried over by names. A move
    /// that drops keeps of it what may be kept, item by item, and else the first reason that stands refuses it. The session
    /// itself stays as it is.
    ///
    /// # Errors
    ///
    /// Want of memory.
    pub fn rebased(
        &self,
        target: &SharedVersion,
        number: u64,
        dropping: bool,
    ) -> Result<Rebased, NoMemory>
        ensures { IfOk result (IsRebased self.now.number number target.now.file (moved_to dropping self.now.file target.now.file self.now.selection)) }
    {
        let (file, version, blank) = (self.file().file(), target.version(), Blank::new(1));
        let (choices, bounds) = (&self.board.choices, &self.board.bounds);
        match moved_to::<Brand>(self.alloc, file, version, choices, bounds, dropping, blank) {
            Ok(moved) => self.ready(target, number, moved),
            Err(MoveFault::Refused(refusal)) => Ok(Rebased::Refused(refusal)),
            Err(MoveFault::NoMemory) => Err(NoMemory),
        }
    }

    /// The session at the target, of this number, with the board that was made there.
    fn ready(&self, target: &SharedVersion, number: u64, moved: Replay) -> Result<Rebased, NoMemory>
        requires board { IsBoardOf target.now.diagram target.now.costs moved.board }
        requires costs { AreOnCosts target.now.file moved.board.bounds }
        ensures { IfOk result (IsRebased self.now.number number target.now.file (Ok (carried_by moved))) }
    {
        let session = Session {
            alloc: self.alloc,
            number: self.number,
            version_number: number,
            version: target.share()?,
            board: moved.board,
        };
        let listing = session.show()?;
        Ok(Rebased::Ready(session, listing, moved.dropped))
    }
}

/// The board of a version without choices and bounds.
fn first_board<L: Ledger>(alloc: Global, version: &Version, blank: Blank) -> Result<Board, NoMemory>
    requires name { blank.name ≡ L.name }
    requires parts { blank.parts ≡ L.parts }
    requires some { 0 < blank.parts }
    ensures board { IfOk result (IsBoardOf version.now.diagram version.now.costs) }
    ensures free { IfOk result (λ board. asked_by board ≡ free) }
{
    let mut steps = Steps::<L>::new(blank);
    free_board(alloc, version, &mut steps)
}
