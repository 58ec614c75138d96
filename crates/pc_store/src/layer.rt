//! One layer of nodes.

ghost use Rattle.std.specs.Prelude.{◌≡◌, ◌<◌, ℕ, length, slice_get, slice_index, slice_index_or, take, replicate, map, All, Some, IfOk, OnOk, OnErr};
ghost use Rattle.pc_store.specs.Layered.{IsDomain, HasRow, new_layer, with_row_at};

use crate::children::MOST_CHILDREN;
use crate::table::{Row, Table};
use pc_base::NoMemory;
use smallvec::SmallVec;
use std::alloc::Global;

/// The nodes of one variable, which takes so many values.
#[derive(Debug, Drop)]
pub(crate) struct Layer {
    pub domain: u32,
    pub table: Table,
}

impl Layer {
    /// A layer with the two nodes that each has: 0, without words, and 1, with every word.
    pub(crate) fn new(alloc: Global, domain: u32) -> Result<Layer, NoMemory>
        requires { IsDomain domain }
        ensures { IfOk result (λ layer. layer ≡ new_layer domain) }
    {
        let mut table = Table::new(alloc);
        let empty = SmallVec::from_slice(alloc, &[0; MOST_CHILDREN][..domain as usize])?;
        table.intern(&empty)?;
        let full = SmallVec::from_slice(alloc, &[1; MOST_CHILDREN][..domain as usize])?;
        table.intern(&full)?;
        Ok(Layer { domain, table })
    }
}

/// New layers, one for each number of values.
pub(crate) fn new_layers(alloc: Global, domains: &[u32]) -> Result<Vec<Layer>, NoMemory>
    requires { All IsDomain domains.now }
    ensures { IfOk result (λ layers. layers.items ≡ map new_layer domains.now) }
{
    let mut layers = Vec::with_capacity(alloc, domains.len())?;
    for domain in domains {
        layers.push(Layer::new(alloc, *domain)?)?;
    }
    Ok(layers)
}

/// The node with a row, in one of the layers. A row that isn't there goes to the end of its layer. Want of memory
/// leaves the layers as they were.
pub(crate) fn intern_at(layers: &mut Vec<Layer>, place: usize, row: &Row) -> Result<u32, NoMemory>
    requires { place < length layers.old.items }
    ensures row { IfOk result (λ node. HasRow layers.new.items place node row.now.items) }
    ensures grows { OnOk result (layers.new.items ≡ with_row_at layers.old.items place row.now.items) }
    ensures err { OnErr result (layers.new.items ≡ layers.old.items) }
{
    layers[place].table.intern(row)
}
