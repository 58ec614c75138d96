//! One layer of labels.

ghost use Rattle.std.specs.Prelude.{◌≡◌, ◌<◌, ◌≤◌, ◌+◌, ◌*◌, [], ◌∷◌, length, map, replicate, slice_index_or, All, Some, None, IfOk};
ghost use Rattle.pc_diagram.specs.Costs.{no_cost};
ghost use Rattle.pc_diagram.specs.Weight.{rank_count};
ghost use Rattle.pc_labels.specs.Marks.{offered, weight_at, AreMarks, IsBelow};
ghost use Rattle.pc_labels.specs.Ranks.{rank_of, Ascend, IsAmong, IsPlaceOf, IsRankedAnew};
ghost use Rattle.pc_labels.specs.Slots.{AreRanksAnew};
ghost use Rattle.pc_labels.specs.SoFar.{widened};

use crate::step::Step;
use pc_base::NoMemory;
use pc_diagram::{CostPair, Weight};
use std::alloc::Global;
use std::marker::Model;

/// The step that stands where there is none.
pub(crate) const NO_STEP: Step = Step { node: 0, value: 0 };

/// Per node of a layer the weight of its least path, or none, and the step back from it, which says nothing where there is no
/// path. All ranks are below the limit.
#[derive(Debug, Drop)]
pub(crate) struct Layer {
    weights: Vec<Weight>,
    steps: Vec<Step>,
    limit: u64,
}

impl Model for Layer {
    ghost use Rattle.pc_labels.specs.Marks.{Marks, AreMarks};

    ghost Value = { Marks };

    ghost view = { λ l. record { weights = l.weights.items; steps = l.steps.items; limit = l.limit } };

    ghost invariant = { λ l. AreMarks (record { weights = l.weights.items; steps = l.steps.items; limit = l.limit }) };
}

impl Layer {
    /// The layer of one node from which paths start.
    pub(crate) fn start(alloc: Global) -> Result<Layer, NoMemory>
        ensures weights { IfOk result (λ layer. layer.weights ≡ Some (record { pair = no_cost; rank = 0 }) ∷ []) }
        ensures limit { IfOk result (λ layer. layer.limit ≡ 1) }
        ensures marks { IfOk result (λ layer. AreMarks layer) }
    {
        let pair = CostPair {
            first: 0,
            second: 0,
        };
        Ok(Layer {
            weights: vec![in alloc; Weight::new(pair, 0); 1]?,
            steps: vec![in alloc; NO_STEP; 1]?,
            limit: 1,
        })
    }

    /// A layer of so many nodes that nothing has reached yet.
    pub(crate) fn unreached(alloc: Global, nodes: u32, limit: u64) -> Result<Layer, NoMemory>
        requires { limit ≤ rank_count }
        ensures weights { IfOk result (λ layer. layer.weights ≡ replicate nodes None) }
        ensures steps { IfOk result (λ layer. length layer.steps ≡ nodes) }
        ensures limit { IfOk result (λ layer. layer.limit ≡ limit) }
        ensures marks { IfOk result (λ layer. AreMarks layer) }
    {
        Ok(Layer {
            weights: vec![in alloc; Weight::none(); nodes as usize]?,
            steps: vec![in alloc; NO_STEP; nodes as usize]?,
            limit,
        })
    }

    /// The number that all ranks are below.
    pub(crate) fn limit(&self) -> u64
        ensures result { result ≡ self.now.limit }
        ensures few { result ≤ rank_count }
        ensures above { All (IsBelow result) self.now.weights }
    {
        self.limit
    }

    /// The weight of a node.
    pub(crate) fn weight(&self, node: u32) -> Weight
        requires { node < length self.now.weights }
        ensures weight { result ≡ weight_at self.now node }
        ensures below { IsBelow self.now.limit result }
    {
        self.weights[node as usize]
    }

    /// The weight of a node with room in its rank for so many values.
    pub(crate) fn widened(&self, node: u32, domain: u32) -> Weight
        requires node { node < length self.now.weights }
        requires domain { 0 < domain }
        requires room { self.now.limit * domain ≤ rank_count }
        ensures { result ≡ widened domain self.now node }
    {
        let weight = self.weights[node as usize];
        match weight.ranked() {
            Some(ranked) => weight.with_rank(ranked.rank * u64::from(domain)),
            None => weight,
        }
    }

    /// The step back from a node.
    pub(crate) fn step(&self, node: u32) -> Step
        requires { node < length self.now.weights }
        ensures { result ≡ slice_index_or self.now.steps node result }
    {
        self.steps[node as usize]
    }

    /// A path to a node, which takes it where it is less than what the node has.
    pub(crate) fn offer(&mut self, node: u32, weight: Weight, step: Step)
        requires node { node < length self.old.weights }
        requires rank { IsBelow self.old.limit weight }
        ensures offered { self.new ≡ offered self.old node weight step }
        ensures marks { AreMarks self.new }
    {
        if weight.is_less_than(&self.weights[node as usize]) {
            self.weights[node as usize] = weight;
            self.steps[node as usize] = step;
        }
    }

    /// The same layer with its different ranks counted from 0, in their order.
    pub(crate) fn ranked_anew(&self, alloc: Global) -> Result<Layer, NoMemory>
        requires { length self.now.weights < rank_count }
        ensures anew { IfOk result (λ anew. AreRanksAnew self.now anew) }
        ensures limit { IfOk result (λ anew. anew.limit ≤ length self.now.weights + 1) }
    {
        let ranks = sorted_ranks(alloc, self.weights.as_slice())?;
        let mut weights = Vec::with_capacity(alloc, self.weights.len())?;
        for weight in self.weights.as_slice() {
            weights.push(ranked_among(weight, ranks.as_slice()))?;
        }
        Ok(Layer {
            weights,
            steps: Vec::from_slice(alloc, self.steps.as_slice())?,
            limit: ranks.len() as u64 + 1,
        })
    }
}

/// The ranks of all paths, in order.
fn sorted_ranks(alloc: Global, weights: &[Weight]) -> Result<Vec<u64>, NoMemory>
    ensures ascend { IfOk result (λ ranks. Ascend ranks.items) }
    ensures all { IfOk result (λ ranks. All (IsAmong ranks.items) weights.now) }
    ensures few { IfOk result (λ ranks. length ranks.items ≤ length weights.now) }
{
    let mut ranks = all_ranks(alloc, weights)?;
    ranks.sort_unstable();
    Ok(ranks)
}

/// The rank of each node's path, and 0 where there is none.
fn all_ranks(alloc: Global, weights: &[Weight]) -> Result<Vec<u64>, NoMemory>
    ensures { IfOk result (λ ranks. ranks.items ≡ map rank_of weights.now) }
{
    let mut ranks = Vec::with_capacity(alloc, weights.len())?;
    for weight in weights {
        ranks.push(rank_of(weight))?;
    }
    Ok(ranks)
}

fn rank_of(weight: &Weight) -> u64
    ensures { result ≡ rank_of weight.now }
{
    match weight.ranked() {
        Some(ranked) => ranked.rank,
        None => 0,
    }
}

/// The weight with its place among ranks that ascend in place of its rank.
fn ranked_among(weight: &Weight, ranks: &[u64]) -> Weight
    requires ascend { Ascend ranks.now }
    requires few { length ranks.now < rank_count }
    ensures { IsRankedAnew ranks.now weight.now result }
{
    match weight.ranked() {
        Some(ranked) => weight.with_rank(place_among(ranks, ranked.rank) as u64),
        None => *weight,
    }
}

/// How many of ranks that ascend are less than a rank.
fn place_among(ranks: &[u64], rank: u64) -> usize
    requires { Ascend ranks.now }
    ensures { IsPlaceOf ranks.now rank result }
{
    ranks.partition_point(|other| *other < rank)
}
