//! Labels of a diagram's nodes.

ghost use Rattle.std.specs.Prelude.{◌≡◌, ◌+◌, ◌-◌, ◌<◌, ◌≤◌, ◌^◌, [], ◌++◌, length, slice_index_or, Some, None, IsSome, IfOk, OnOk, IfSome, option_map};
ghost use Rattle.pc_diagram.specs.declared.side.Side.TheVariants.{Heads, Tails};
ghost use Rattle.pc_diagram.specs.NodePaths.{AreCostsOf, AreChoicesOf};
ghost use Rattle.pc_labels.specs.Growing.{marks_at, AreLayers};
ghost use Rattle.pc_labels.specs.Kept.{kept_heads, kept_tails, path_at};
ghost use Rattle.pc_labels.specs.Labels.{slot_count, AreHeads, AreTails, WereHeads, WereTails};
ghost use Rattle.pc_labels.specs.Marks.{weight_at};

use crate::from_end::push_tails;
use crate::from_root::push_heads;
use crate::label::Label;
use crate::shared_layer::{SharedLayer, all_shared};
use pc_base::NoMemory;
use pc_diagram::{Choices, Costs, Diagram, Side, Steps, Weight, Word};
use std::alloc::Global;
use std::marker::Model;
use std::sync::ledger::Ledger;

/// Of each node of a diagram the cheapest path that leads to it from the root, or from it to the end, and of several such paths
/// the one that comes first by its values. It takes 24 bytes a node.
#[derive(Debug, Drop)]
pub struct Labels {
    side: Side,
    layers: Vec<SharedLayer>,
}

impl Model for Labels {
    ghost use Rattle.pc_labels.specs.Growing.{AreLayers};
    ghost use Rattle.pc_labels.specs.Kept.{KeptPaths, kept_layers};

    ghost Value = { KeptPaths };

    ghost view = { λ l. record { side = l.side; layers = kept_layers l.side l.layers.items } };

    ghost invariant = { λ l. AreLayers l.side l.layers.items };
}

/// The labels of the paths from the root that agree with choices.
pub fn heads<L: Ledger>(
    alloc: Global,
    diagram: &Diagram,
    choices: &Choices,
    costs: &Costs,
    steps: &mut Steps<L>,
) -> Result<Labels, NoMemory>
    requires costs { AreCostsOf diagram.now.domains costs.now }
    requires choices { AreChoicesOf diagram.now.domains choices.now }
    ensures heads { IfOk result (λ labels. AreHeads diagram.now choices.now costs.now labels) }
    ensures steps { steps.new ≤ steps.old + slot_count diagram.now choices.now 0 (length diagram.now.domains) }
{
    let domains = diagram.domains();
    let mut layers = Vec::with_capacity(alloc, domains.len() + 1)?;
    layers.push(SharedLayer::start(alloc)?)?;
    for variable in 0..domains.len() {
        push_heads(
            alloc,
            diagram,
            choices,
            costs,
            variable as u32,
            &mut layers,
            steps,
        )?;
    }
    Ok(Labels {
        side: Side::Heads,
        layers,
    })
}

/// The labels of the paths to the end that agree with choices.
pub fn tails<L: Ledger>(
    alloc: Global,
    diagram: &Diagram,
    choices: &Choices,
    costs: &Costs,
    steps: &mut Steps<L>,
) -> Result<Labels, NoMemory>
    requires costs { AreCostsOf diagram.now.domains costs.now }
    requires choices { AreChoicesOf diagram.now.domains choices.now }
    ensures tails { IfOk result (λ labels. AreTails diagram.now choices.now costs.now labels) }
    ensures steps { steps.new ≤ steps.old + slot_count diagram.now choices.now 0 (length diagram.now.domains) }
{
    let domains = diagram.domains();
    let mut layers = Vec::with_capacity(alloc, domains.len() + 1)?;
    layers.push(SharedLayer::start(alloc)?)?;
    for made in 0..domains.len() {
        let variable = domains.len() - 1 - made;
        push_tails(
            alloc,
            diagram,
            choices,
            costs,
            variable as u32,
            &mut layers,
            steps,
        )?;
    }
    Ok(Labels {
        side: Side::Tails,
        layers,
    })
}

impl Labels {
    ghost use Rattle.pc_labels.specs.Kept.{kept_at, label, weight};

    /// The least first cost of the paths of a node, and the least second cost of those that have it; none where the node has no
    /// path.
    pub fn at(&self, layer: u32, node: u32) -> Option<Label>
        requires layer { layer < length self.now.layers }
        requires node { node < length (slice_index_or self.now.layers layer []) }
        ensures { result ≡ option_map label (kept_at self.now layer node) }
    {
        match self.weight(layer, node).ranked() {
            Some(ranked) => Some(Label {
                first: ranked.pair.first,
                second: ranked.pair.second,
            }),
            None => None,
        }
    }

    /// The label of a node with the rank of its path, as one number: it is less than another of the layer where the label is,
    /// or where the labels are equal and the path comes first.
    pub fn weight(&self, layer: u32, node: u32) -> Weight
        requires layer { layer < length self.now.layers }
        requires node { node < length (slice_index_or self.now.layers layer []) }
        ensures { result ≡ option_map weight (kept_at self.now layer node) }
    {
        self.layers[layer as usize].weight(node)
    }

    /// The rank of the path that is kept of a node. Ranks of one layer compare as the paths do by their values, and are equal
    /// exactly where the paths are.
    pub fn rank(&self, layer: u32, node: u32) -> u64
        requires { IsSome (kept_at self.now layer node) }
        ensures { IfSome (kept_at self.now layer node) (λ kept. result ≡ kept.rank) }
    {
        match self.weight(layer, node).ranked() {
            Some(ranked) => ranked.rank,
            None => 0,
        }
    }

    /// The path that is kept of a node: the values from the root to it, or from it to the end.
    pub fn path(&self, alloc: Global, layer: u32, node: u32) -> Result<Word, NoMemory>
        requires { IsSome (kept_at self.now layer node) }
        ensures { IfOk result (λ word. IfSome (kept_at self.now layer node) (λ kept. word ≡ kept.path)) }
    {
        let mut word = Word::new(alloc);
        let layers = self.layers.as_slice();
        match self.side {
            Side::Heads => push_head(layers, layer as usize, node, &mut word)?,
            Side::Tails => push_tail(layers, layer as usize, node, &mut word)?,
        }
        Ok(word)
    }

    /// The labels of the paths from the root that agree with choices, brought forward from labels made for choices that agree
    /// with these at every variable other than `variable`: the layers up to it are shared, the others made anew.
    pub fn heads_again<L: Ledger>(
        &self,
        alloc: Global,
        diagram: &Diagram,
        choices: &Choices,
        costs: &Costs,
        variable: u32,
        steps: &mut Steps<L>,
    ) -> Result<Labels, NoMemory>
        requires variable { variable < length diagram.now.domains }
        requires costs { AreCostsOf diagram.now.domains costs.now }
        requires choices { AreChoicesOf diagram.now.domains choices.now }
        requires before { WereHeads diagram.now choices.now costs.now variable self.now }
        ensures heads { IfOk result (λ labels. AreHeads diagram.now choices.now costs.now labels) }
        ensures steps { steps.new ≤ steps.old + slot_count diagram.now choices.now variable (length diagram.now.domains - variable) }
    {
        let first = variable as usize;
        let domains = diagram.domains();
        let mut layers = all_shared(alloc, &self.layers.as_slice()[..first + 1])?;
        for next in first..domains.len() {
            push_heads(
                alloc,
                diagram,
                choices,
                costs,
                next as u32,
                &mut layers,
                steps,
            )?;
        }
        Ok(Labels {
            side: Side::Heads,
            layers,
        })
    }

    /// The labels of the paths to the end that agree with choices, brought forward from labels made for choices that agree with
    /// these at every variable other than `variable`: the layers after it are shared, the others made anew.
    pub fn tails_again<L: Ledger>(
        &self,
        alloc: Global,
        diagram: &Diagram,
        choices: &Choices,
        costs: &Costs,
        variable: u32,
        steps: &mut Steps<L>,
    ) -> Result<Labels, NoMemory>
        requires variable { variable < length diagram.now.domains }
        requires costs { AreCostsOf diagram.now.domains costs.now }
        requires choices { AreChoicesOf diagram.now.domains choices.now }
        requires before { WereTails diagram.now choices.now costs.now variable self.now }
        ensures tails { IfOk result (λ labels. AreTails diagram.now choices.now costs.now labels) }
        ensures steps { steps.new ≤ steps.old + slot_count diagram.now choices.now 0 (variable + 1) }
    {
        let last = variable as usize;
        let domains = diagram.domains();
        let mut layers = all_shared(alloc, &self.layers.as_slice()[last + 1..])?;
        for made in domains.len() - 1 - last..domains.len() {
            let next = domains.len() - 1 - made;
            push_tails(
                alloc,
                diagram,
                choices,
                costs,
                next as u32,
                &mut layers,
                steps,
            )?;
        }
        Ok(Labels {
            side: Side::Tails,
            layers,
        })
    }
}

/// Puts the values of the path from the root to a node at the end of a word.
fn push_head(
    layers: &[SharedLayer],
    layer: usize,
    node: u32,
    word: &mut Word,
) -> Result<(), NoMemory>
    requires layers { AreLayers Heads layers.now }
    requires layer { layer < length layers.now }
    requires node { IsSome (weight_at (marks_at layers.now layer) node) }
    ensures { OnOk result (word.new ≡ word.old ++ path_at (slice_index_or (kept_heads layers.now) layer []) node) }
{
    if layer == 0 {
        return Ok(());
    }
    let step = layers[layer].step(node);
    push_head(layers, layer - 1, step.node, word)?;
    word.push(step.value)?;
    Ok(())
}

/// Puts the values of the path from a node to the end at the end of a word.
fn push_tail(
    layers: &[SharedLayer],
    layer: usize,
    node: u32,
    word: &mut Word,
) -> Result<(), NoMemory>
    requires layers { AreLayers Tails layers.now }
    requires layer { layer < length layers.now }
    requires node { IsSome (weight_at (marks_at layers.now layer) node) }
    ensures { OnOk result (word.new ≡ word.old ++ path_at (slice_index_or (kept_tails layers.now) layer []) node) }
{
    if layer + 1 == layers.len() {
        return Ok(());
    }
    let step = layers[layer].step(node);
    word.push(step.value)?;
    push_tail(layers, layer + 1, step.node, word)?;
    Ok(())
}
