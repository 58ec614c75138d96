//! A large diagram: of a product whose variables stand in two halves, where each must differ from its fellow in the other half.

use pc_base::{NoMemory, Sequence};
use pc_diagram::{CostPair, Costs, Diagram, DiagramFault, RawDiagram};
use std::alloc::Global;

/// How many values the variables of a half take.
const DOMAINS: [u32; 7] = [5, 5, 5, 5, 5, 5, 12];

/// The canonical diagram of that product: in the first half a node for each beginning, and in the second one for what is still to
/// be told apart.
pub fn far_diagram(alloc: Global) -> Result<Diagram, DiagramFault> {
    let mut raw = RawDiagram {
        domains: Sequence::new(alloc),
        sizes: Sequence::from_slice(alloc, &[1])?,
        edges: Sequence::new(alloc),
    };
    let size = push_first_half(alloc, &mut raw)?;
    push_second_half(alloc, &mut raw, size)?;
    Diagram::check(alloc, raw)
}

/// Puts the variables of the first half at the end, and tells how many nodes the layer after them has.
fn push_first_half(alloc: Global, raw: &mut RawDiagram) -> Result<u32, NoMemory> {
    let mut size = 1u32;
    for domain in DOMAINS {
        size = size.saturating_mul(domain);
        raw.domains.push(domain)?;
        raw.sizes.push(size)?;
        raw.edges.push(rising(alloc, size)?)?;
    }
    Ok(size)
}

/// Puts the variables of the second half at the end, after a layer of so many nodes.
fn push_second_half(alloc: Global, raw: &mut RawDiagram, nodes: u32) -> Result<(), NoMemory> {
    let mut size = nodes;
    for domain in DOMAINS {
        size = size.checked_div(domain).unwrap_or(0);
        raw.domains.push(domain)?;
        raw.sizes.push(size)?;
        raw.edges.push(falling(alloc, size, domain)?)?;
    }
    Ok(())
}

/// Edges to so many nodes, one to each.
fn rising(alloc: Global, size: u32) -> Result<Sequence<Option<u32>>, NoMemory> {
    let mut edges = Sequence::new(alloc);
    for target in 0..size {
        edges.push(Some(target))?;
    }
    Ok(edges)
}

/// Edges to so many nodes. A node stands for a value that was taken and for one of these nodes, and leads there for any other
/// value.
fn falling(alloc: Global, size: u32, domain: u32) -> Result<Sequence<Option<u32>>, NoMemory> {
    let mut edges = Sequence::new(alloc);
    for taken in 0..domain {
        for target in 0..size {
            for value in 0..domain {
                edges.push(if value == taken { None } else { Some(target) })?;
            }
        }
    }
    Ok(edges)
}

/// Costs of the values, which differ in no order.
pub fn far_costs(alloc: Global) -> Result<Costs, NoMemory> {
    let mut costs = Costs::new(alloc);
    for half in 0..2u32 {
        for (place, domain) in DOMAINS.iter().enumerate() {
            let variable = half.wrapping_mul(7).wrapping_add(place as u32);
            costs.push(row(alloc, variable, *domain)?)?;
        }
    }
    Ok(costs)
}

fn row(alloc: Global, variable: u32, domain: u32) -> Result<Sequence<CostPair>, NoMemory> {
    let mut pairs = Sequence::new(alloc);
    for value in 0..domain {
        let first = variable
            .wrapping_mul(37)
            .wrapping_add(value.wrapping_mul(53))
            % 101;
        let second = variable
            .wrapping_mul(29)
            .wrapping_add(value.wrapping_mul(71))
            % 97;
        pairs.push(CostPair {
            first: i64::from(first),
            second: i64::from(second),
        })?;
    }
    Ok(pairs)
}
