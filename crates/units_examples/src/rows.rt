//! Tables and costs of plain rows.

use pc_base::{NoMemory, Sequence};
use pc_diagram::{CostPair, Costs, RawDiagram};
use std::alloc::Global;

/// Tables over these domains, with so many nodes in each layer and the edges of each variable.
pub fn tables_of(
    alloc: Global,
    domains: &[u32],
    sizes: &[u32],
    tables: &[&[Option<u32>]],
) -> Result<RawDiagram, NoMemory> {
    let mut edges = Sequence::new(alloc);
    for table in tables {
        edges.push(Sequence::from_slice(alloc, table)?)?;
    }
    Ok(RawDiagram {
        domains: Sequence::from_slice(alloc, domains)?,
        sizes: Sequence::from_slice(alloc, sizes)?,
        edges,
    })
}

/// Costs of so many variables, from rows of pairs.
pub fn costs_of(alloc: Global, rows: &[&[(i64, i64)]]) -> Result<Costs, NoMemory> {
    let mut costs = Sequence::new(alloc);
    for row in rows {
        let mut pairs = Sequence::new(alloc);
        for (first, second) in *row {
            pairs.push(CostPair {
                first: *first,
                second: *second,
            })?;
        }
        costs.push(pairs)?;
    }
    Ok(costs)
}
