//! A layer of labels that several hold.

ghost use Rattle.std.specs.Prelude.{◌≡◌, ◌<◌, [], ◌∷◌, length, slice_index_or, Some, IfOk};
ghost use Rattle.pc_diagram.specs.Costs.{no_cost};
ghost use Rattle.pc_labels.specs.Marks.{weight_at, AreMarks};

use crate::layer::Layer;
use crate::step::Step;
use pc_base::NoMemory;
use pc_diagram::Weight;
use std::alloc::Global;
use std::marker::Model;
use std::sync::Arc;

/// An `Arc` of a layer, which contracts see as the layer.
#[derive(Debug, Drop)]
pub(crate) struct SharedLayer {
    layer: Arc<Layer, Global>,
}

impl Model for SharedLayer {
    ghost use Rattle.pc_labels.specs.Marks.{Marks};
    ghost use Rattle.std.specs.Arc.{arc_value};

    ghost Value = { Marks };

    ghost view = { λ s. arc_value s.layer };
}

impl SharedLayer {
    /// The layer of one node from which paths start.
    pub(crate) fn start(alloc: Global) -> Result<SharedLayer, NoMemory>
        ensures weights { IfOk result (λ layer. layer.weights ≡ Some (record { pair = no_cost; rank = 0 }) ∷ []) }
        ensures marks { IfOk result (λ layer. AreMarks layer) }
    {
        SharedLayer::new(alloc, Layer::start(alloc)?)
    }

    /// A layer that is to be held by several. Want of memory lets the layer go.
    pub(crate) fn new(alloc: Global, layer: Layer) -> Result<SharedLayer, NoMemory>
        ensures { IfOk result (λ shared. shared ≡ layer) }
    {
        Ok(SharedLayer {
            layer: Arc::new(alloc, layer)?,
        })
    }

    /// One more that holds the same layer. It takes no memory, but the number of holders has a limit.
    pub(crate) fn share(&self) -> Result<SharedLayer, NoMemory>
        ensures { IfOk result (λ other. other ≡ self.now) }
    {
        Ok(SharedLayer {
            layer: Arc::try_clone(&self.layer)?,
        })
    }

    /// The layer.
    pub(crate) fn layer(&self) -> &Layer
        ensures { result.now ≡ self.now }
    {
        &self.layer
    }

    /// The weight of a node.
    pub(crate) fn weight(&self, node: u32) -> Weight
        requires { node < length self.now.weights }
        ensures weight { result ≡ weight_at self.now node }
    {
        self.layer().weight(node)
    }

    /// The step back from a node.
    pub(crate) fn step(&self, node: u32) -> Step
        requires { node < length self.now.weights }
        ensures { result ≡ slice_index_or self.now.steps node result }
    {
        self.layer().step(node)
    }
}

/// The same layers, held once more.
pub(crate) fn all_shared(
    alloc: Global,
    layers: &[SharedLayer],
) -> Result<Vec<SharedLayer>, NoMemory>
    ensures { IfOk result (λ shared. shared.items ≡ layers.now) }
{
    let mut shared = Vec::with_capacity(alloc, layers.len())?;
    for layer in layers {
        shared.push(layer.share()?)?;
    }
    Ok(shared)
}
