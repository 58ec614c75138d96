//! The bike: three frames, two wheels, and a light or none.

ghost use Rattle.std.specs.Prelude.{◌≡◌, IfOk};
ghost use Rattle.pc_diagram.specs.Bike.{bike_costs};
ghost use Rattle.pc_diagram.specs.BikeDiagram.{bike_diagram};

use pc_base::{NoMemory, Sequence};
use pc_diagram::{CostPair, Costs, Diagram, DiagramFault, RawDiagram};
use std::alloc::Global;

/// The diagram of the eight bikes that can be built: steel has no led, and carbon needs the second wheel.
pub fn bike_diagram(alloc: Global) -> Result<Diagram, DiagramFault>
    ensures { IfOk result (λ diagram. diagram ≡ bike_diagram) }
{
    let frames = [Some(0), Some(1), Some(2)];
    let wheels = [Some(0), Some(0), Some(1), Some(1), None, Some(1)];
    let lights = [Some(0), None, Some(0), Some(0)];
    let mut edges = Sequence::new(alloc);
    edges.push(Sequence::from_slice(alloc, &frames)?)?;
    edges.push(Sequence::from_slice(alloc, &wheels)?)?;
    edges.push(Sequence::from_slice(alloc, &lights)?)?;
    let raw = RawDiagram {
        domains: Sequence::from_slice(alloc, &[3, 2, 2])?,
        sizes: Sequence::from_slice(alloc, &[1, 3, 2, 1])?,
        edges,
    };
    Diagram::check(alloc, raw)
}

/// Price and days of each frame, wheel and light.
pub fn bike_costs(alloc: Global) -> Result<Costs, NoMemory>
    ensures { IfOk result (λ costs. costs ≡ bike_costs) }
{
    let frames = [pair(300, 2), pair(500, 1), pair(900, 5)];
    let wheels = [pair(80, 1), pair(120, 1)];
    let lights = [pair(0, 0), pair(40, 1)];
    let mut costs = Costs::new(alloc);
    costs.push(Sequence::from_slice(alloc, &frames)?)?;
    costs.push(Sequence::from_slice(alloc, &wheels)?)?;
    costs.push(Sequence::from_slice(alloc, &lights)?)?;
    Ok(costs)
}

fn pair(first: i64, second: i64) -> CostPair
    ensures { result ≡ record { first = first; second = second } }
{
    CostPair { first, second }
}
