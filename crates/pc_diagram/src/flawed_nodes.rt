//! The first node of a layer with a flaw.

ghost use Rattle.std.specs.Prelude.{◌≡◌, ◌<◌, ◌≤◌, ◌+◌, ◌*◌, length, map, is_some, IfOk};
ghost use Rattle.std.specs.List.{slice_range, range_with_len, list_any};
ghost use Rattle.pc_diagram.specs.Diagram.{IsShaped};
ghost use Rattle.pc_diagram.specs.DiagramFaults.{flawed_node, is_outside, out_of_turn, met};
ghost use Rattle.pc_diagram.specs.Fitting.{is_number};
ghost use Rattle.pc_diagram.specs.Levels.{level, as_level};

use crate::flaw::Flaw;
use crate::raw_diagram::RawDiagram;
use indexmap::IndexSet;
use pc_base::NoMemory;
use std::alloc::Global;

/// The first node with a flaw, by the edges of a variable: a node of its layer, or of the next one where it is unreached
/// or out of order.
pub(crate) fn flawed_node(
    alloc: Global,
    raw: &RawDiagram,
    flaw: Flaw,
    variable: usize,
) -> Result<Option<u32>, NoMemory>
    requires shaped { IsShaped raw.now }
    requires inside { variable < length raw.now.domains }
    ensures { IfOk result (λ found. found ≡ flawed_node flaw (level raw.now variable)) }
{
    let domain = raw.domains.as_slice()[variable] as usize;
    let size = raw.sizes.as_slice()[variable];
    let next = raw.sizes.as_slice()[variable + 1];
    let table = raw.edges.as_slice()[variable].as_slice();
    match flaw {
        Flaw::EdgeOut => Ok(first_leading_out(table, domain, size, next)),
        Flaw::Dead => Ok(first_dead(table, domain, size)),
        Flaw::Unreached => first_unreached(alloc, table, next),
        Flaw::Twin => first_twin(alloc, table, domain, size),
        Flaw::Order => Ok(first_out_of_turn(table)),
    }
}

/// The first node with an edge to no node of the next layer.
fn first_leading_out(table: &[Option<u32>], domain: usize, size: u32, next: u32) -> Option<u32>
    requires { length table.now ≡ size * domain }
    ensures { result ≡ flawed_node Flaw.EdgeOut (as_level domain size next table.now) }
{
    for node in 0..size {
        if leads_out(row(table, domain, node), next) {
            return Some(node);
        }
    }
    None
}

/// The first node without an edge.
fn first_dead(table: &[Option<u32>], domain: usize, size: u32) -> Option<u32>
    requires { length table.now ≡ size * domain }
    ensures { result ≡ flawed_node Flaw.Dead (as_level domain size 0 table.now) }
{
    for node in 0..size {
        if !has_edge(row(table, domain, node)) {
            return Some(node);
        }
    }
    None
}

/// The first node of the next layer that no edge leads to.
fn first_unreached(alloc: Global, table: &[Option<u32>], next: u32) -> Result<Option<u32>, NoMemory>
    ensures { IfOk result (λ found. found ≡ flawed_node Flaw.Unreached (as_level 0 0 next table.now)) }
{
    let reached = reached_nodes(alloc, table, next)?;
    for node in 0..next {
        if !reached[node as usize] {
            return Ok(Some(node));
        }
    }
    Ok(None)
}

/// The first node with the edges of an earlier one.
fn first_twin(
    alloc: Global,
    table: &[Option<u32>],
    domain: usize,
    size: u32,
) -> Result<Option<u32>, NoMemory>
    requires { length table.now ≡ size * domain }
    ensures { IfOk result (λ found. found ≡ flawed_node Flaw.Twin (as_level domain size 0 table.now)) }
{
    let mut rows = IndexSet::with_capacity(alloc, size as usize)?;
    for node in 0..size {
        if !rows.insert(row(table, domain, node))? {
            return Ok(Some(node));
        }
    }
    Ok(None)
}

/// The first node of the next layer that isn't met in its turn.
fn first_out_of_turn(table: &[Option<u32>]) -> Option<u32>
    ensures { result ≡ out_of_turn 0 (met table.now) }
{
    let mut turn = 0u64;
    for edge in table {
        if let Some(target) = edge {
            let target = u64::from(*target);
            if turn < target {
                return Some(turn as u32);
            }
            if target == turn {
                turn += 1;
            }
        }
    }
    None
}

/// The edges of a node, one for each value.
fn row(table: &[Option<u32>], domain: usize, node: u32) -> &[Option<u32>]
    requires { node * domain + domain ≤ length table.now }
    ensures { result.now ≡ slice_range table.now (node * domain) (node * domain + domain) }
{
    let start = node as usize * domain;
    &table[start..start + domain]
}

/// Whether an edge of a node leads to none of so many nodes.
fn leads_out(row: &[Option<u32>], count: u32) -> bool
    ensures { result ≡ list_any (is_outside count) row.now }
{
    row.iter().any(|edge| is_outside(count, *edge))
}

/// Whether a node has an edge.
fn has_edge(row: &[Option<u32>]) -> bool
    ensures { result ≡ list_any is_some row.now }
{
    row.iter().any(|edge| edge.is_some())
}

/// Whether an edge leads to none of so many nodes.
fn is_outside(count: u32, edge: Option<u32>) -> bool
    ensures { result ≡ is_outside count edge }
{
    match edge {
        Some(target) => target >= count,
        None => false,
    }
}

/// Of each of so many nodes whether an edge leads to it.
fn reached_nodes(alloc: Global, table: &[Option<u32>], count: u32) -> Result<Vec<bool>, NoMemory>
    ensures { IfOk result (λ reached. reached.items ≡ map (λ node. list_any (λ target. is_number target node) table.now) (range_with_len 0 count)) }
{
    let mut reached = vec![in alloc; false; count as usize]?;
    for edge in table {
        if let Some(target) = edge {
            let place = *target as usize;
            if place < reached.len() {
                reached[place] = true;
            }
        }
    }
    Ok(reached)
}
