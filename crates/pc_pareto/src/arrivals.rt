//! The edges into the nodes of a layer.

ghost use Rattle.std.specs.Prelude.{◌≡◌, ◌<◌, ◌≤◌, ◌+◌, ◌*◌, ◌++◌, ◌∷◌, [], ℕ, List, length, slice_index, slice_index_or, slice_set, Contains, replicate, Some, IfOk, OnOk, IfSome, ◌↔◌};
ghost use Rattle.pc_diagram.specs.Levels.{level};
ghost use Rattle.pc_diagram.specs.declared.limits.TheConstants.{MOST_VARIABLES};
ghost use Rattle.pc_pareto.specs.Arrivals.{IsSlot, IsOwned, IsArrival, HasAlso, target_count, slots_of};
ghost use Rattle.pc_pareto.specs.declared.arrival.Arrival.{Arrival};

use crate::arrival::Arrival;
use pc_base::{NoMemory, Sequence};
use pc_diagram::{Diagram, Side, Steps};
use std::alloc::Global;
use std::sync::ledger::Ledger;

/// For each node of the layer on the far side of a variable the edges that lead into it from the near one, for the chosen
/// value or for all.
pub(crate) fn arrivals<L: Ledger>(
    alloc: Global,
    side: Side,
    diagram: &Diagram,
    variable: u32,
    chosen: Option<u32>,
    steps: &mut Steps<L>,
) -> Result<Vec<Sequence<Arrival>>, NoMemory>
    requires variable { variable < length diagram.now.domains }
    requires few { length diagram.now.domains ≤ MOST_VARIABLES }
    requires chosen { IfSome chosen (λ value. value < slice_index diagram.now.domains variable) }
    ensures length { IfOk result (λ lists. length lists.items ≡ target_count side (level diagram.now variable)) }
    ensures arrivals { IfOk result (λ lists. (node : ℕ) (arrival : Arrival) → node < length lists.items
        → Contains (slice_index_or lists.items node []) arrival ↔ IsArrival side (level diagram.now variable) chosen (slice_index diagram.now.sizes variable) node arrival) }
    ensures steps { steps.new ≤ steps.old + slots_of diagram.now variable }
{
    let mut lists = empty_lists(alloc, target_count(side, diagram, variable))?;
    for node in 0..diagram.nodes(variable) {
        add_node(&mut lists, side, diagram, variable, chosen, node, steps)?;
    }
    Ok(lists)
}

/// How many nodes the layer on the far side of a variable has.
fn target_count(side: Side, diagram: &Diagram, variable: u32) -> u32
    requires variable { variable < length diagram.now.domains }
    requires few { length diagram.now.domains ≤ MOST_VARIABLES }
    ensures { result ≡ target_count side (level diagram.now variable) }
{
    match side {
        Side::Heads => diagram.nodes(variable + 1),
        Side::Tails => diagram.nodes(variable),
    }
}

fn empty_lists(alloc: Global, count: u32) -> Result<Vec<Sequence<Arrival>>, NoMemory>
    ensures { IfOk result (λ lists. lists.items ≡ replicate count []) }
{
    let mut lists = Vec::with_capacity(alloc, count as usize)?;
    for _ in 0..count {
        lists.push(Sequence::new(alloc))?;
    }
    Ok(lists)
}

/// Adds the edges of one node of the variable's layer, for the chosen value or for all.
fn add_node<L: Ledger>(
    lists: &mut Vec<Sequence<Arrival>>,
    side: Side,
    diagram: &Diagram,
    variable: u32,
    chosen: Option<u32>,
    node: u32,
    steps: &mut Steps<L>,
) -> Result<(), NoMemory>
    requires variable { variable < length diagram.now.domains }
    requires node { node < slice_index diagram.now.sizes variable }
    requires chosen { IfSome chosen (λ value. value < slice_index diagram.now.domains variable) }
    requires lists { length lists.old.items ≡ target_count side (level diagram.now variable) }
    ensures has { OnOk result (HasAlso (IsOwned side (level diagram.now variable) chosen node) lists.old.items lists.new.items) }
    ensures steps { steps.new ≤ steps.old + slice_index diagram.now.domains variable }
{
    match chosen {
        Some(value) => add_edge(lists, side, diagram, variable, node, value, steps),
        None => add_values(lists, side, diagram, variable, node, steps),
    }
}

/// Adds the edges of one node of the variable's layer for all values.
fn add_values<L: Ledger>(
    lists: &mut Vec<Sequence<Arrival>>,
    side: Side,
    diagram: &Diagram,
    variable: u32,
    node: u32,
    steps: &mut Steps<L>,
) -> Result<(), NoMemory>
    requires variable { variable < length diagram.now.domains }
    requires node { node < slice_index diagram.now.sizes variable }
    requires lists { length lists.old.items ≡ target_count side (level diagram.now variable) }
    ensures has { OnOk result (HasAlso (IsOwned side (level diagram.now variable) None node) lists.old.items lists.new.items) }
    ensures steps { steps.new ≤ steps.old + slice_index diagram.now.domains variable }
{
    let domain = diagram.domains()[variable as usize];
    for value in 0..domain {
        add_edge(lists, side, diagram, variable, node, value, steps)?;
    }
    Ok(())
}

/// Adds the edge of one node of the variable's layer for one value, if there is such an edge.
fn add_edge<L: Ledger>(
    lists: &mut Vec<Sequence<Arrival>>,
    side: Side,
    diagram: &Diagram,
    variable: u32,
    node: u32,
    value: u32,
    steps: &mut Steps<L>,
) -> Result<(), NoMemory>
    requires variable { variable < length diagram.now.domains }
    requires node { node < slice_index diagram.now.sizes variable }
    requires value { value < slice_index diagram.now.domains variable }
    requires lists { length lists.old.items ≡ target_count side (level diagram.now variable) }
    ensures has { OnOk result (HasAlso (IsSlot side (level diagram.now variable) node value) lists.old.items lists.new.items) }
    ensures steps { steps.new ≡ steps.old + 1 }
{
    match diagram.edge(variable, node, value, steps) {
        Some(target) => match side {
            Side::Heads => push_into(lists, target, Arrival { node, value }),
            Side::Tails => push_into(
                lists,
                node,
                Arrival {
                    node: target,
                    value,
                },
            ),
        },
        None => Ok(()),
    }
}

fn push_into(
    lists: &mut Vec<Sequence<Arrival>>,
    place: u32,
    arrival: Arrival,
) -> Result<(), NoMemory>
    requires { place < length lists.old.items }
    ensures { OnOk result (lists.new.items ≡ slice_set lists.old.items place (slice_index_or lists.old.items place [] ++ arrival ∷ [])) }
{
    lists[place as usize].push(arrival)
}
