//! The first fault of a diagram's tables.

ghost use Rattle.std.specs.Prelude.{◌≡◌, ◌≤◌, length, IfOk};
ghost use Rattle.pc_diagram.specs.Diagram.{IsShaped};
ghost use Rattle.pc_diagram.specs.DiagramFaults.{layer_of, flawed_place, fault_at, fault_among};
ghost use Rattle.pc_diagram.specs.Levels.{levels};

use crate::diagram_fault::DiagramFault;
use crate::flaw::Flaw;
use crate::flawed_nodes::flawed_node;
use crate::limits::MOST_VARIABLES;
use crate::place::Place;
use crate::raw_diagram::RawDiagram;
use pc_base::NoMemory;
use std::alloc::Global;

/// The fault of the first of these flaws that stands somewhere.
pub(crate) fn fault_among(
    alloc: Global,
    raw: &RawDiagram,
    flaws: &[Flaw],
) -> Result<Option<DiagramFault>, NoMemory>
    requires { IsShaped raw.now }
    ensures { IfOk result (λ fault. fault ≡ fault_among raw.now flaws.now) }
{
    for flaw in flaws {
        if let Some(place) = flawed_place(alloc, raw, *flaw)? {
            return Ok(Some(fault_at(*flaw, place)));
        }
    }
    Ok(None)
}

/// The first place with a flaw, by layer and then by node.
fn flawed_place(alloc: Global, raw: &RawDiagram, flaw: Flaw) -> Result<Option<Place>, NoMemory>
    requires { IsShaped raw.now }
    ensures { IfOk result (λ place. place ≡ flawed_place flaw 0 (levels raw.now)) }
{
    for variable in 0..raw.domains.len() {
        if let Some(node) = flawed_node(alloc, raw, flaw, variable)? {
            let layer = layer_of(flaw, variable as u32);
            return Ok(Some(Place { layer, node }));
        }
    }
    Ok(None)
}

/// The layer of a node with a flaw, by the variable whose edges show it.
fn layer_of(flaw: Flaw, variable: u32) -> u32
    requires { variable ≤ MOST_VARIABLES }
    ensures { result ≡ layer_of flaw variable }
{
    match flaw {
        Flaw::EdgeOut | Flaw::Dead | Flaw::Twin => variable,
        Flaw::Unreached | Flaw::Order => variable + 1,
    }
}

fn fault_at(flaw: Flaw, place: Place) -> DiagramFault
    ensures { result ≡ fault_at flaw place }
{
    let Place { layer, node } = place;
    match flaw {
        Flaw::EdgeOut => DiagramFault::EdgeOut { layer, node },
        Flaw::Dead => DiagramFault::Dead { layer, node },
        Flaw::Unreached => DiagramFault::Unreached { layer, node },
        Flaw::Twin => DiagramFault::Twin { layer, node },
        Flaw::Order => DiagramFault::Order { layer, node },
    }
}
