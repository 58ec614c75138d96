//! Boards.

ghost use Rattle.std.specs.Prelude.{◌≡◌, ◌<◌, ◌≤◌, ◌+◌, ◌*◌, [], ◌∷◌, ◌++◌, length, slice_index, true, false, is_some, IfOk, IfErr};
ghost use Rattle.pc_diagram.specs.Fitting.{fitting};
ghost use Rattle.pc_diagram.specs.Listing.{items, listing};
ghost use Rattle.pc_diagram.specs.Paths.{words};
ghost use Rattle.pc_diagram.specs.Choices.{is_chosen, without, AgreeBeside};
ghost use Rattle.pc_diagram.specs.Diagram.{IsCanonical};
ghost use Rattle.pc_diagram.specs.NodePaths.{AreChoicesOf, AreCostsOf};
ghost use Rattle.pc_domains.specs.BoardFaults.{IsBoardFault};
ghost use Rattle.pc_domains.specs.Boards.{IsBoardOf};
ghost use Rattle.pc_domains.specs.Floors.{IsEndFloor};
ghost use Rattle.pc_domains.specs.Sides.{AreDistinctOf, listed_of};
ghost use Rattle.pc_domains.specs.Slots.{slots_before, slots_of};

use crate::asked::kept_of;
use crate::board_fault::BoardFault;
use crate::ends::Ends;
use crate::front_listing::{item_of_front_way, listed_front_way};
use crate::label_listing::{item_of_label_way, listed_label_way};
use pc_base::{NoMemory, Sequence};
use pc_diagram::{Bounds, Choices, CostPair, Costs, Diagram, Listed, Listing, Side, Steps};
use std::alloc::Global;
use std::sync::ledger::Ledger;

/// Choices and bounds over a diagram, and what is kept from both of its ends with the choices: fronts where the second cost
/// has a bound, and else labels.
#[derive(Debug, Drop)]
pub struct Board {
    pub choices: Choices,
    pub bounds: Bounds,
    pub heads: Ends,
    pub tails: Ends,
}

impl Board {
    /// The board of a diagram with these choices and bounds.
    ///
    /// # Errors
    ///
    /// The limit of the fronts, where the second cost has a bound, the heads first; else that no word fits; or want of memory.
    pub fn new<L: Ledger>(
        alloc: Global,
        diagram: &Diagram,
        costs: &Costs,
        choices: &Choices,
        bounds: &Bounds,
        steps: &mut Steps<L>,
    ) -> Result<Board, BoardFault>
        requires costs { AreCostsOf diagram.now.domains costs.now }
        requires choices { AreChoicesOf diagram.now.domains choices.now }
        ensures board { IfOk result (IsBoardOf diagram.now costs.now) }
        ensures choices { IfOk result (λ board. board.choices ≡ choices.now) }
        ensures bounds { IfOk result (λ board. board.bounds ≡ bounds.now) }
        ensures fault { IfErr result (IsBoardFault diagram.now costs.now choices.now bounds.now) }
        ensures steps { steps.new ≤ steps.old + 2 * slots_before diagram.now (length diagram.now.domains) }
    {
        kept_of(diagram, choices);
        let second = bounds.second;
        let heads = Ends::of(alloc, Side::Heads, diagram, costs, choices, second, steps)?;
        let tails = Ends::of(alloc, Side::Tails, diagram, costs, choices, second, steps)?;
        if !tails.root_is_within(bounds) {
            return Err(BoardFault::NoFit);
        }
        Ok(Board {
            choices: choices.copy(alloc)?,
            bounds: *bounds,
            heads,
            tails,
        })
    }

    /// The board with one choice more, at the end, of a variable that isn't chosen.
    ///
    /// # Errors
    ///
    /// Those of the board made anew.
    pub fn with_choice<L: Ledger>(
        &self,
        alloc: Global,
        diagram: &Diagram,
        costs: &Costs,
        variable: u32,
        value: u32,
        steps: &mut Steps<L>,
    ) -> Result<Board, BoardFault>
        requires board { IsBoardOf diagram.now costs.now self.now }
        requires variable { variable < length diagram.now.domains }
        requires value { value < slice_index diagram.now.domains variable }
        requires free { is_chosen self.now.choices variable ≡ false }
        ensures board { IfOk result (IsBoardOf diagram.now costs.now) }
        ensures choices { IfOk result (λ board. board.choices ≡ self.now.choices ++ record { variable = variable; value = value } ∷ []) }
        ensures bounds { IfOk result (λ board. board.bounds ≡ self.now.bounds) }
        ensures fault { IfErr result (IsBoardFault diagram.now costs.now (self.now.choices ++ record { variable = variable; value = value } ∷ []) self.now.bounds) }
        ensures steps { steps.new ≤ steps.old + (slots_before diagram.now (length diagram.now.domains) + slots_of diagram.now variable) }
    {
        let choices = self.choices.with(alloc, variable, value)?;
        self.again(alloc, diagram, costs, choices, variable, steps)
    }

    /// The board without the choice of a variable that is chosen.
    ///
    /// # Errors
    ///
    /// Those of the board made anew.
    pub fn without_choice<L: Ledger>(
        &self,
        alloc: Global,
        diagram: &Diagram,
        costs: &Costs,
        variable: u32,
        steps: &mut Steps<L>,
    ) -> Result<Board, BoardFault>
        requires board { IsBoardOf diagram.now costs.now self.now }
        requires variable { variable < length diagram.now.domains }
        requires chosen { is_chosen self.now.choices variable ≡ true }
        ensures board { IfOk result (IsBoardOf diagram.now costs.now) }
        ensures choices { IfOk result (λ board. board.choices ≡ without self.now.choices variable) }
        ensures bounds { IfOk result (λ board. board.bounds ≡ self.now.bounds) }
        ensures fault { IfErr result (IsBoardFault diagram.now costs.now (without self.now.choices variable) self.now.bounds) }
        ensures steps { steps.new ≤ steps.old + (slots_before diagram.now (length diagram.now.domains) + slots_of diagram.now variable) }
    {
        let choices = self.choices.without(alloc, variable)?;
        self.again(alloc, diagram, costs, choices, variable, steps)
    }

    /// The board with choices that agree with its own at every variable other than one.
    fn again<L: Ledger>(
        &self,
        alloc: Global,
        diagram: &Diagram,
        costs: &Costs,
        choices: Choices,
        variable: u32,
        steps: &mut Steps<L>,
    ) -> Result<Board, BoardFault>
        requires board { IsBoardOf diagram.now costs.now self.now }
        requires variable { variable < length diagram.now.domains }
        requires choices { AreDistinctOf diagram.now.domains choices }
        requires agree { AgreeBeside variable self.now.choices choices }
        ensures board { IfOk result (IsBoardOf diagram.now costs.now) }
        ensures choices { IfOk result (λ board. board.choices ≡ choices) }
        ensures bounds { IfOk result (λ board. board.bounds ≡ self.now.bounds) }
        ensures fault { IfErr result (IsBoardFault diagram.now costs.now choices self.now.bounds) }
        ensures steps { steps.new ≤ steps.old + (slots_before diagram.now (length diagram.now.domains) + slots_of diagram.now variable) }
    {
        let bounds = self.bounds;
        let second = bounds.second;
        let heads = self.heads.again(
            alloc,
            Side::Heads,
            diagram,
            costs,
            &choices,
            second,
            variable,
            steps,
        )?;
        let tails = self.tails.again(
            alloc,
            Side::Tails,
            diagram,
            costs,
            &choices,
            second,
            variable,
            steps,
        )?;
        if !tails.root_is_within(&bounds) {
            return Err(BoardFault::NoFit);
        }
        Ok(Board {
            choices,
            bounds,
            heads,
            tails,
        })
    }

    /// What is listed of a value, if it is listed: the cheapest word of the diagram that takes it, agrees with the choices and
    /// keeps the bounds, with its costs.
    ///
    /// # Errors
    ///
    /// Want of memory.
    pub fn item<L: Ledger>(
        &self,
        alloc: Global,
        diagram: &Diagram,
        costs: &Costs,
        variable: u32,
        value: u32,
        steps: &mut Steps<L>,
    ) -> Result<Option<Listed>, NoMemory>
        requires variable { variable < length diagram.now.domains }
        requires value { value < slice_index diagram.now.domains variable }
        requires board { IsBoardOf diagram.now costs.now self.now }
        ensures listed { IfOk result (λ item. item ≡ listed_of diagram.now costs.now self.now.choices self.now.bounds variable value) }
        ensures steps { steps.new ≤ steps.old + slice_index diagram.now.sizes variable }
    {
        self.item_above(alloc, diagram, costs, None, variable, value, steps)
    }

    /// Whether a value is listed. It takes no memory.
    pub fn lists<L: Ledger>(
        &self,
        diagram: &Diagram,
        costs: &Costs,
        variable: u32,
        value: u32,
        steps: &mut Steps<L>,
    ) -> bool
        requires variable { variable < length diagram.now.domains }
        requires value { value < slice_index diagram.now.domains variable }
        requires board { IsBoardOf diagram.now costs.now self.now }
        ensures listed { result ≡ is_some (listed_of diagram.now costs.now self.now.choices self.now.bounds variable value) }
        ensures steps { steps.new ≤ steps.old + slice_index diagram.now.sizes variable }
    {
        let (choices, bounds) = (&self.choices, &self.bounds);
        match (&self.heads, &self.tails) {
            (Ends::Least(heads), Ends::Least(tails)) => listed_label_way(
                diagram, costs, choices, bounds, heads, tails, None, variable, value, steps,
            )
            .is_some(),
            (Ends::Pairs(heads), Ends::Pairs(tails)) => listed_front_way(
                diagram, costs, choices, bounds, heads, tails, variable, value, steps,
            )
            .is_some(),
            _ => false,
        }
    }

    /// What is listed of each variable, in order.
    ///
    /// # Errors
    ///
    /// Want of memory.
    pub fn listing<L: Ledger>(
        &self,
        alloc: Global,
        diagram: &Diagram,
        costs: &Costs,
        steps: &mut Steps<L>,
    ) -> Result<Listing, NoMemory>
        requires board { IsBoardOf diagram.now costs.now self.now }
        ensures listing { IfOk result (λ rows. rows ≡ listing costs.now (words diagram.now) self.now.choices self.now.bounds) }
        ensures steps { steps.new ≤ steps.old + slots_before diagram.now (length diagram.now.domains) }
    {
        let mut rows = Listing::new(alloc);
        for (variable, domain) in diagram.domains().iter().enumerate() {
            rows.push(self.row(alloc, diagram, costs, variable as u32, *domain, steps)?)?;
        }
        Ok(rows)
    }

    /// What is listed of a variable of so many values.
    fn row<L: Ledger>(
        &self,
        alloc: Global,
        diagram: &Diagram,
        costs: &Costs,
        variable: u32,
        domain: u32,
        steps: &mut Steps<L>,
    ) -> Result<Sequence<Listed>, NoMemory>
        requires variable { variable < length diagram.now.domains }
        requires domain { domain ≡ slice_index diagram.now.domains variable }
        requires board { IsBoardOf diagram.now costs.now self.now }
        ensures row { IfOk result (λ row. row ≡ items costs.now (fitting costs.now (words diagram.now) self.now.choices self.now.bounds) variable) }
        ensures steps { steps.new ≤ steps.old + domain * slice_index diagram.now.sizes variable }
    {
        let floor = self.tails.floor(variable + 1, diagram.nodes(variable + 1));
        let mut row = Sequence::new(alloc);
        for value in 0..domain {
            if let Some(item) = self.item_above(
                alloc, diagram, costs, floor, variable, value, steps,
            )? {
                row.push(item)?;
            }
        }
        Ok(row)
    }

    /// What is listed of a value, if it is listed, where the least costs of the tails of its variable may be known.
    fn item_above<L: Ledger>(
        &self,
        alloc: Global,
        diagram: &Diagram,
        costs: &Costs,
        floor: Option<CostPair>,
        variable: u32,
        value: u32,
        steps: &mut Steps<L>,
    ) -> Result<Option<Listed>, NoMemory>
        requires variable { variable < length diagram.now.domains }
        requires value { value < slice_index diagram.now.domains variable }
        requires board { IsBoardOf diagram.now costs.now self.now }
        requires floor { IsEndFloor self.now.tails (variable + 1) floor }
        ensures listed { IfOk result (λ item. item ≡ listed_of diagram.now costs.now self.now.choices self.now.bounds variable value) }
        ensures steps { steps.new ≤ steps.old + slice_index diagram.now.sizes variable }
    {
        let (choices, bounds) = (&self.choices, &self.bounds);
        match (&self.heads, &self.tails) {
            (Ends::Least(heads), Ends::Least(tails)) => {
                match listed_label_way(
                    diagram, costs, choices, bounds, heads, tails, floor, variable, value, steps,
                ) {
                    Some(way) => Ok(Some(item_of_label_way(
                        alloc, heads, tails, variable, value, &way,
                    )?)),
                    None => Ok(None),
                }
            }
            (Ends::Pairs(heads), Ends::Pairs(tails)) => {
                match listed_front_way(
                    diagram, costs, choices, bounds, heads, tails, variable, value, steps,
                ) {
                    Some(way) => Ok(Some(item_of_front_way(
                        alloc, heads, tails, variable, value, &way,
                    )?)),
                    None => Ok(None),
                }
            }
            _ => Ok(None),
        }
    }
}
