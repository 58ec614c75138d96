//! The edges of a layer, four bytes each.

ghost use Rattle.std.specs.Prelude.{◌≡◌, ◌<◌, None, false, length, slice_index_or, count_by, is_some, IfOk};
ghost use Rattle.std.specs.List.{list_any};
ghost use Rattle.pc_diagram.specs.DiagramFaults.{is_outside};

use pc_base::NoMemory;
use std::alloc::Global;
use std::marker::Model;

/// Stands for no edge.
const NO_EDGE: u32 = u32::MAX;

/// The edges of a layer: of node 0 by value, then of node 1, and so on. An edge leads to the node of its number.
#[derive(Debug, Drop)]
pub(crate) struct Table {
    numbers: Vec<u32>,
}

impl Model for Table {
    ghost use Rattle.std.specs.Prelude.{List, ℕ, Option, map};
    ghost use Rattle.pc_diagram.specs.Edges.{edge_of};

    ghost Value = { List (Option ℕ) };

    ghost view = { λ t. map edge_of t.numbers.items };
}

impl Table {
    /// A table of edges to nodes whose numbers aren't the one that stands for no edge.
    pub(crate) fn new(alloc: Global, edges: &[Option<u32>]) -> Result<Table, NoMemory>
        requires { list_any (is_outside NO_EDGE) edges.now ≡ false }
        ensures { IfOk result (λ table. table ≡ edges.now) }
    {
        let mut numbers = Vec::with_capacity(alloc, edges.len())?;
        for edge in edges {
            numbers.push(edge.unwrap_or(NO_EDGE))?;
        }
        Ok(Table { numbers })
    }

    /// How many edges there are.
    pub(crate) fn edge_count(&self) -> usize
        ensures { result ≡ count_by is_some self.now }
    {
        self.numbers
            .iter()
            .filter(|number| **number != NO_EDGE)
            .count()
    }

    /// The edge at a place.
    pub(crate) fn edge(&self, place: usize) -> Option<u32>
        requires { place < length self.now }
        ensures { result ≡ slice_index_or self.now place None }
    {
        match self.numbers[place] {
            NO_EDGE => None,
            number => Some(number),
        }
    }
}
