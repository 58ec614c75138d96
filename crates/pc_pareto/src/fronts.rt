//! The fronts of all nodes of a diagram.

ghost use Rattle.std.specs.Prelude.{◌≡◌, ◌<◌, ◌≤◌, ◌+◌, ◌-◌, [], length, slice_index_or, None, OnOk, IfOk, IfErr};
ghost use Rattle.pc_diagram.specs.declared.side.Side.TheVariants.{Heads, Tails};
ghost use Rattle.pc_diagram.specs.NodePaths.{AreCostsOf, AreChoicesOf};
ghost use Rattle.pc_pareto.specs.declared.limits.TheConstants.{MOST_LABELS};
ghost use Rattle.pc_pareto.specs.Again.{WereFrontsOf};
ghost use Rattle.pc_pareto.specs.Arrivals.{variable_at, slots_from};
ghost use Rattle.pc_pareto.specs.Faults.{IsFaultAt, IsLimitOf};
ghost use Rattle.pc_pareto.specs.Fronts.{items_at, item_at, limit_at, word_at};
ghost use Rattle.pc_pareto.specs.FrontsView.{side_of, stages_of, distance_of, IsFrontsOf};
ghost use Rattle.pc_pareto.specs.Items.{pair_of};

use crate::front::Front;
use crate::front_fault::FrontFault;
use crate::front_item::FrontItem;
use crate::kept::kept_stages;
use crate::pass::{finish, first_stages, variable_at};
use crate::path::path_of;
use pc_base::{NoMemory, Sequence};
use pc_diagram::{Choices, Costs, Diagram, Side, Steps, Word};
use std::alloc::Global;
use std::sync::ledger::Ledger;

/// For each node of a diagram the front of the costs of its words: of those that lead to it from the root, or of those that
/// lead from it to the end, as far as they agree with some choices.
#[derive(Debug, Drop)]
pub struct Fronts {
    side: Side,

    // The layers by their distance from the end of the side.
    stages: Sequence<Sequence<Front>>,
}

impl Fronts {
    /// The items of a node, by first cost. Their steps back name a node of the layer before, as seen from the side's end.
    pub fn items(&self, layer: u32, node: u32) -> &[FrontItem]
        requires layer { layer < length (stages_of self.now) }
        requires node { node < length (slice_index_or (stages_of self.now) (distance_of self.now layer) []) }
        ensures { result.now ≡ items_at (stages_of self.now) (distance_of self.now layer) node }
    {
        let distance = self.distance(layer);
        self.stages.as_slice()[distance].as_slice()[node as usize].as_slice()
    }

    /// How many pairs the front of a node has.
    pub fn len(&self, layer: u32, node: u32) -> u64
        requires layer { layer < length (stages_of self.now) }
        requires node { node < length (slice_index_or (stages_of self.now) (distance_of self.now layer) []) }
        ensures { result ≡ length (items_at (stages_of self.now) (distance_of self.now layer) node) }
    {
        self.items(layer, node).len() as u64
    }

    /// A pair of the front of a node, by first cost.
    pub fn pair(&self, layer: u32, node: u32, place: u64) -> (i64, i64)
        requires layer { layer < length (stages_of self.now) }
        requires node { node < length (slice_index_or (stages_of self.now) (distance_of self.now layer) []) }
        requires place { place < length (items_at (stages_of self.now) (distance_of self.now layer) node) }
        ensures first { result.0 ≡ (item_at (stages_of self.now) (distance_of self.now layer) node place).first }
        ensures second { result.1 ≡ (item_at (stages_of self.now) (distance_of self.now layer) node place).second }
    {
        let item = &self.items(layer, node)[place as usize];
        (item.first, item.second)
    }

    /// The first word, by value positions, that leads to a node from the root, or from it to the end, and has a pair of its
    /// front.
    pub fn path(&self, alloc: Global, layer: u32, node: u32, place: u64) -> Result<Word, NoMemory>
        requires layer { layer < length (stages_of self.now) }
        requires node { node < length (slice_index_or (stages_of self.now) (distance_of self.now layer) []) }
        requires place { place < length (items_at (stages_of self.now) (distance_of self.now layer) node) }
        ensures { IfOk result (λ word. word ≡ word_at (side_of self.now) (stages_of self.now) (distance_of self.now layer)
            (item_at (stages_of self.now) (distance_of self.now layer) node place)) }
    {
        let item = &self.items(layer, node)[place as usize];
        path_of(
            alloc,
            self.side,
            self.stages.as_slice(),
            self.distance(layer),
            item,
        )
    }

    /// How far a layer is from the end of the side.
    fn distance(&self, layer: u32) -> usize
        requires { layer < length (stages_of self.now) }
        ensures is { result ≡ distance_of self.now layer }
        ensures within { result < length (stages_of self.now) }
    {
        match self.side {
            Side::Heads => layer as usize,
            Side::Tails => self.stages.len() - 1 - layer as usize,
        }
    }

    /// The rank of the path with a pair among all paths of the layer: it compares as these do by value positions.
    pub fn rank(&self, layer: u32, node: u32, place: u64) -> u64
        requires layer { layer < length (stages_of self.now) }
        requires node { node < length (slice_index_or (stages_of self.now) (distance_of self.now layer) []) }
        requires place { place < length (items_at (stages_of self.now) (distance_of self.now layer) node) }
        ensures { result ≡ (item_at (stages_of self.now) (distance_of self.now layer) node place).back.rank }
    {
        self.items(layer, node)[place as usize].back.rank
    }

    /// The fronts of the words that lead to each node from the root and agree with the choices, where these fronts were made
    /// for choices that agree with them at every variable other than one. The layers up to this variable stay.
    ///
    /// # Errors
    ///
    /// As `front_heads`.
    pub fn heads_again<L: Ledger>(
        &self,
        alloc: Global,
        diagram: &Diagram,
        choices: &Choices,
        costs: &Costs,
        variable: u32,
        steps: &mut Steps<L>,
    ) -> Result<Fronts, FrontFault>
        requires costs { AreCostsOf diagram.now.domains costs.now }
        requires choices { AreChoicesOf diagram.now.domains choices.now }
        requires variable { variable < length diagram.now.domains }
        requires made { WereFrontsOf Heads diagram.now costs.now choices.now variable self.now }
        ensures fronts { IfOk result (IsFrontsOf Heads diagram.now costs.now choices.now) }
        ensures within { OnOk result (limit_at MOST_LABELS Heads diagram.now costs.now choices.now ≡ None) }
        ensures fault { IfErr result (IsFaultAt (IsLimitOf Heads diagram.now costs.now choices.now)) }
        ensures steps { steps.new ≤ steps.old + slots_from Heads diagram.now variable }
    {
        self.again(alloc, Side::Heads, diagram, choices, costs, variable, steps)
    }

    /// The fronts of the words that lead from each node to the end and agree with the choices, where these fronts were made
    /// for choices that agree with them at every variable other than one. The layers after this variable stay.
    ///
    /// # Errors
    ///
    /// As `front_tails`.
    pub fn tails_again<L: Ledger>(
        &self,
        alloc: Global,
        diagram: &Diagram,
        choices: &Choices,
        costs: &Costs,
        variable: u32,
        steps: &mut Steps<L>,
    ) -> Result<Fronts, FrontFault>
        requires costs { AreCostsOf diagram.now.domains costs.now }
        requires choices { AreChoicesOf diagram.now.domains choices.now }
        requires variable { variable < length diagram.now.domains }
        requires made { WereFrontsOf Tails diagram.now costs.now choices.now variable self.now }
        ensures fronts { IfOk result (IsFrontsOf Tails diagram.now costs.now choices.now) }
        ensures within { OnOk result (limit_at MOST_LABELS Tails diagram.now costs.now choices.now ≡ None) }
        ensures fault { IfErr result (IsFaultAt (IsLimitOf Tails diagram.now costs.now choices.now)) }
        ensures steps { steps.new ≤ steps.old + slots_from Tails diagram.now (length diagram.now.domains - (variable + 1)) }
    {
        self.again(alloc, Side::Tails, diagram, choices, costs, variable, steps)
    }

    fn again<L: Ledger>(
        &self,
        alloc: Global,
        side: Side,
        diagram: &Diagram,
        choices: &Choices,
        costs: &Costs,
        variable: u32,
        steps: &mut Steps<L>,
    ) -> Result<Fronts, FrontFault>
        requires costs { AreCostsOf diagram.now.domains costs.now }
        requires choices { AreChoicesOf diagram.now.domains choices.now }
        requires variable { variable < length diagram.now.domains }
        requires made { WereFrontsOf side diagram.now costs.now choices.now variable self.now }
        ensures fronts { IfOk result (IsFrontsOf side diagram.now costs.now choices.now) }
        ensures within { OnOk result (limit_at MOST_LABELS side diagram.now costs.now choices.now ≡ None) }
        ensures fault { IfErr result (IsFaultAt (IsLimitOf side diagram.now costs.now choices.now)) }
        ensures steps { steps.new ≤ steps.old + slots_from side diagram.now (variable_at side (length diagram.now.domains) variable) }
    {
        let variables = diagram.domains().len() as u32;
        let from = variable_at(side, diagram, variable);
        let (stages, limit, total) = kept_stages(alloc, self.stages.as_slice(), from)?;
        match finish(
            alloc, side, diagram, choices, costs, variables, from, stages, limit, total, steps,
        ) {
            Ok(stages) => Ok(Fronts { side, stages }),
            Err(fault) => Err(fault),
        }
    }
}

/// The fronts of the words that lead to each node from the root and agree with the choices.
///
/// # Errors
///
/// The first layer at which the fronts have more than 1,048,576 pairs, all in all, or want of memory.
pub fn front_heads<L: Ledger>(
    alloc: Global,
    diagram: &Diagram,
    choices: &Choices,
    costs: &Costs,
    steps: &mut Steps<L>,
) -> Result<Fronts, FrontFault>
    requires costs { AreCostsOf diagram.now.domains costs.now }
    requires choices { AreChoicesOf diagram.now.domains choices.now }
    ensures fronts { IfOk result (IsFrontsOf Heads diagram.now costs.now choices.now) }
    ensures within { OnOk result (limit_at MOST_LABELS Heads diagram.now costs.now choices.now ≡ None) }
    ensures fault { IfErr result (IsFaultAt (IsLimitOf Heads diagram.now costs.now choices.now)) }
    ensures steps { steps.new ≤ steps.old + slots_from Heads diagram.now 0 }
{
    fronts_of(alloc, Side::Heads, diagram, choices, costs, steps)
}

/// The fronts of the words that lead from each node to the end and agree with the choices.
///
/// # Errors
///
/// The last layer from which on the fronts have more than 1,048,576 pairs, all in all, or want of memory.
pub fn front_tails<L: Ledger>(
    alloc: Global,
    diagram: &Diagram,
    choices: &Choices,
    costs: &Costs,
    steps: &mut Steps<L>,
) -> Result<Fronts, FrontFault>
    requires costs { AreCostsOf diagram.now.domains costs.now }
    requires choices { AreChoicesOf diagram.now.domains choices.now }
    ensures fronts { IfOk result (IsFrontsOf Tails diagram.now costs.now choices.now) }
    ensures within { OnOk result (limit_at MOST_LABELS Tails diagram.now costs.now choices.now ≡ None) }
    ensures fault { IfErr result (IsFaultAt (IsLimitOf Tails diagram.now costs.now choices.now)) }
    ensures steps { steps.new ≤ steps.old + slots_from Tails diagram.now 0 }
{
    fronts_of(alloc, Side::Tails, diagram, choices, costs, steps)
}

fn fronts_of<L: Ledger>(
    alloc: Global,
    side: Side,
    diagram: &Diagram,
    choices: &Choices,
    costs: &Costs,
    steps: &mut Steps<L>,
) -> Result<Fronts, FrontFault>
    requires costs { AreCostsOf diagram.now.domains costs.now }
    requires choices { AreChoicesOf diagram.now.domains choices.now }
    ensures fronts { IfOk result (IsFrontsOf side diagram.now costs.now choices.now) }
    ensures within { OnOk result (limit_at MOST_LABELS side diagram.now costs.now choices.now ≡ None) }
    ensures fault { IfErr result (IsFaultAt (IsLimitOf side diagram.now costs.now choices.now)) }
    ensures steps { steps.new ≤ steps.old + slots_from side diagram.now 0 }
{
    let variables = diagram.domains().len() as u32;
    let stages = first_stages(alloc)?;
    match finish(
        alloc, side, diagram, choices, costs, variables, 0, stages, 1, 1, steps,
    ) {
        Ok(stages) => Ok(Fronts { side, stages }),
        Err(fault) => Err(fault),
    }
}
