//! Decision diagrams.

ghost use Rattle.std.specs.Prelude.{◌≡◌, ◌≢◌, ◌<◌, ◌≤◌, ◌+◌, length, slice_index, sum, Some, None, OnOk, IfOk, IfErr, IfSome};

use crate::diagram_fault::DiagramFault;
use crate::flaw::Flaw;
use crate::flaws::fault_among;
use crate::raw_diagram::RawDiagram;
use crate::shape::misshapen_layer;
use crate::steps::Steps;
use crate::table::Table;
use pc_base::{NoMemory, Sequence};
use std::alloc::Global;
use std::marker::Model;
use std::sync::ledger::Ledger;

/// What may be wrong with a node, in the order in which it is told.
const FLAWS: [Flaw; 5] = [
    Flaw::EdgeOut,
    Flaw::Dead,
    Flaw::Unreached,
    Flaw::Twin,
    Flaw::Order,
];

/// A canonical decision diagram over 1 to 64 variables of 1 to 64 values: layered, live, reached, reduced, and with its
/// nodes numbered in the order in which they are first met. It has at most 262,144 nodes, and takes four bytes for each
/// node and value.
#[derive(Debug, Drop)]
pub struct Diagram {
    domains: Sequence<u32>,
    sizes: Sequence<u32>,
    edges: Sequence<Table>,
}

impl Model for Diagram {
    ghost use Rattle.pc_diagram.specs.declared.raw_diagram.RawDiagram.{RawDiagram};

    ghost Value = { RawDiagram };

    ghost use Rattle.pc_diagram.specs.Diagram.{IsCanonical};

    ghost view = { λ d. record { domains = d.domains; sizes = d.sizes; edges = d.edges } };

    ghost invariant = { λ d. IsCanonical (record { domains = d.domains; sizes = d.sizes; edges = d.edges }) };
}

impl Diagram {
    ghost use Rattle.pc_diagram.specs.Diagram.{IsCanonical};
    ghost use Rattle.pc_diagram.specs.DiagramFaults.{first_fault};
    ghost use Rattle.pc_diagram.specs.Levels.{level, edge, edge_count};

    /// The diagram of these tables, which stay as they are, where they are those of a canonical diagram.
    ///
    /// # Errors
    ///
    /// The first fault of the tables, or want of memory, which may come in any case.
    pub fn check(alloc: Global, raw: RawDiagram) -> Result<Diagram, DiagramFault>
        ensures same { IfOk result (λ diagram. diagram ≡ raw) }
        ensures canonical { OnOk result (first_fault raw ≡ None) }
        ensures fault { IfErr result (λ fault. fault ≢ DiagramFault.NoMemory → first_fault raw ≡ Some fault) }
    {
        if let Some(layer) = misshapen_layer(&raw) {
            return Err(DiagramFault::Shape { layer, node: 0 });
        }
        if let Some(fault) = fault_among(alloc, &raw, &FLAWS)? {
            return Err(fault);
        }
        Ok(Diagram::packed(alloc, raw)?)
    }

    /// How many nodes a layer has.
    pub fn nodes(&self, layer: u32) -> u32
        requires { layer ≤ length self.now.domains }
        ensures { result ≡ slice_index self.now.sizes layer }
    {
        self.sizes.as_slice()[layer as usize]
    }

    /// How many nodes all layers have.
    pub fn node_count(&self) -> u64
        ensures { result ≡ sum self.now.sizes }
    {
        let mut nodes = 0;
        for size in self.sizes.as_slice() {
            nodes += u64::from(*size);
        }
        nodes
    }

    /// How many edges all nodes have.
    pub fn edge_count(&self) -> u64
        ensures { result ≡ edge_count self.now }
    {
        let mut edges = 0;
        for table in self.edges.as_slice() {
            edges += table.edge_count() as u64;
        }
        edges
    }

    /// The node of the next layer that a node's edge for a value leads to, if it has such an edge. It is one step.
    pub fn edge<L: Ledger>(
        &self,
        variable: u32,
        node: u32,
        value: u32,
        steps: &mut Steps<L>,
    ) -> Option<u32>
        requires variable { variable < length self.now.domains }
        requires node { node < slice_index self.now.sizes variable }
        requires value { value < slice_index self.now.domains variable }
        ensures edge { result ≡ edge (level self.now variable) node value }
        ensures within { IfSome result (λ target. target < slice_index self.now.sizes (variable + 1)) }
        ensures step { steps.new ≡ steps.old + 1 }
    {
        steps.take();
        let domain = self.domains.as_slice()[variable as usize] as usize;
        let table = &self.edges.as_slice()[variable as usize];
        table.edge(node as usize * domain + value as usize)
    }

    /// How many values each variable takes.
    pub fn domains(&self) -> &[u32]
        ensures domains { result.now ≡ self.now.domains }
        ensures canonical { IsCanonical self.now }
    {
        self.domains.as_slice()
    }

    /// The diagram of canonical tables.
    fn packed(alloc: Global, raw: RawDiagram) -> Result<Diagram, NoMemory>
        requires { IsCanonical raw }
        ensures { IfOk result (λ diagram. diagram ≡ raw) }
    {
        let mut edges = Sequence::with_capacity(alloc, raw.edges.len())?;
        for table in raw.edges.as_slice() {
            edges.push(Table::new(alloc, table.as_slice())?)?;
        }
        let RawDiagram {
            domains,
            sizes,
            edges: _,
        } = raw;
        Ok(Diagram {
            domains,
            sizes,
            edges,
        })
    }
}
