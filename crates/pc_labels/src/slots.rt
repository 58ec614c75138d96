//! The slots of a variable.

ghost use Rattle.std.specs.Prelude.{◌≡◌, ◌*◌, ◌≤◌, ◌<◌, length, slice_index, slice_index_or, [], All, IfOk, IfSome};
ghost use Rattle.pc_diagram.specs.Costs.{IsPricePair};
ghost use Rattle.pc_diagram.specs.Choices.{value_of};
ghost use Rattle.pc_diagram.specs.Weight.{rank_count};
ghost use Rattle.pc_diagram.specs.NodePaths.{AreCostsOf, AreChoicesOf};
ghost use Rattle.pc_labels.specs.AllowedSlots.{AreAllowed, AreSlots, AreWeights};

use pc_base::NoMemory;
use pc_diagram::{Choices, CostPair, Costs, Diagram, Weight};
use std::alloc::Global;

/// The values that choices allow for a variable, from the first on and up to the end.
#[derive(Clone, Copy, Debug)]
pub(crate) struct Values {
    pub(crate) first: u32,
    pub(crate) end: u32,
}

/// The slots of a variable that choices allow: their values, and by value what each adds to a path, which is its costs and the
/// value's share in the rank.
#[derive(Debug, Drop)]
pub(crate) struct Slots {
    pub(crate) values: Values,
    pub(crate) weights: Vec<Weight>,
}

impl Slots {
    /// The slots of a variable, where a value adds itself so many times to the rank.
    pub(crate) fn new(
        alloc: Global,
        diagram: &Diagram,
        choices: &Choices,
        costs: &Costs,
        variable: u32,
        scale: u64,
    ) -> Result<Slots, NoMemory>
        requires variable { variable < length diagram.now.domains }
        requires costs { AreCostsOf diagram.now.domains costs.now }
        requires choices { AreChoicesOf diagram.now.domains choices.now }
        requires room { slice_index diagram.now.domains variable * scale ≤ rank_count }
        ensures { IfOk result (λ slots. AreSlots (slice_index diagram.now.domains variable) (value_of choices.now variable) (slice_index_or costs.now variable []) scale slots) }
    {
        let domain = diagram.domains()[variable as usize];
        Ok(Slots {
            values: allowed_values(choices, variable, domain),
            weights: slot_weights(alloc, costs.as_slice()[variable as usize].as_slice(), scale)?,
        })
    }
}

/// The values that choices allow for a variable of so many values.
fn allowed_values(choices: &Choices, variable: u32, domain: u32) -> Values
    requires { IfSome (value_of choices.now variable) (λ value. value < domain) }
    ensures { AreAllowed domain (value_of choices.now variable) result }
{
    match choices.value_of(variable) {
        Some(value) => Values {
            first: value,
            end: value + 1,
        },
        None => Values {
            first: 0,
            end: domain,
        },
    }
}

/// What each value adds to a path.
fn slot_weights(alloc: Global, row: &[CostPair], scale: u64) -> Result<Vec<Weight>, NoMemory>
    requires prices { All IsPricePair row.now }
    requires room { length row.now * scale ≤ rank_count }
    ensures { IfOk result (λ weights. AreWeights row.now scale weights.items) }
{
    let mut weights = Vec::with_capacity(alloc, row.len())?;
    for (value, pair) in row.iter().enumerate() {
        weights.push(Weight::new(*pair, value as u64 * scale))?;
    }
    Ok(weights)
}
