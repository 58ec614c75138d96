//! Measures what is kept of the nodes of a diagram from either end. With no argument it tells the nodes and edges of the diagrams.
//! With the word `labels` it tells the times of labels beside a bare pass over the edges, and with the word `fronts` the times of
//! fronts and the memory that they took.
#![tactic(auto)]

ghost use Rattle.std.specs.Prelude.{◌≡◌, ◌<◌};

mod bare;
mod ends;
mod far;
mod memory;

use anyhow::Result;
use ends::{tell_fronts, tell_labels};
use far::{far_costs, far_diagram};
use pc_diagram::{Choices, Diagram, Steps, are_choices_of, are_costs_of};
use std::marker::Brand;
use std::sync::ledger::{Blank, Ledger};
use std::{env, io};
use units_examples::{loose_costs, loose_diagram};

/// The variables without rules.
const LOOSE: u32 = 19;

fn main(rt: HostRuntime) -> Result<()> {
    measure::<Brand>(&rt, Blank::new(1))
}

/// Tells how large the diagrams are, and the times that the words ask for.
fn measure<L: Ledger>(rt: &HostRuntime, blank: Blank) -> Result<()>
    requires name { blank.name ≡ L.name }
    requires parts { blank.parts ≡ L.parts }
    requires some { 0 < blank.parts }
{
    let mut steps = Steps::<L>::new(blank);
    tell_sizes(rt)?;
    if is_given(rt, "labels")? {
        measure_labels(rt, &mut steps)?;
    }
    if is_given(rt, "fronts")? {
        measure_fronts(rt, &mut steps)?;
    }
    Ok(())
}

/// Whether a word is among the arguments.
fn is_given(rt: &HostRuntime, name: &str) -> io::Result<bool> {
    for word in env::args(rt)?.skip(1) {
        if word.as_str() == name {
            return Ok(true);
        }
    }
    Ok(false)
}

/// Tells how large the diagrams are.
fn tell_sizes(rt: &HostRuntime) -> Result<()> {
    tell_size(rt, &far_diagram(rt.alloc())?)?;
    tell_size(rt, &loose_diagram(rt.alloc(), LOOSE)?)
}

/// Tells how large a diagram is.
fn tell_size(rt: &HostRuntime, diagram: &Diagram) -> Result<()> {
    println!(rt;
        "{} nodes, {} edges",
        diagram.node_count(),
        diagram.edge_count()
    )?;
    Ok(())
}

/// Tells the times of labels without choices.
fn measure_labels<L: Ledger>(rt: &HostRuntime, steps: &mut Steps<L>) -> Result<()> {
    let far = far_diagram(rt.alloc())?;
    let costs = far_costs(rt.alloc())?;
    let free = Choices::new(rt.alloc());
    if are_costs_of(far.domains(), &costs) && are_choices_of(far.domains(), &free) {
        tell_labels(rt, &far, &free, &costs, steps)?;
    }
    Ok(())
}

/// Tells the times and the memory of fronts without choices.
fn measure_fronts<L: Ledger>(rt: &HostRuntime, steps: &mut Steps<L>) -> Result<()> {
    let loose = loose_diagram(rt.alloc(), LOOSE)?;
    let costs = loose_costs(rt.alloc(), LOOSE)?;
    let free = Choices::new(rt.alloc());
    if are_costs_of(loose.domains(), &costs) && are_choices_of(loose.domains(), &free) {
        tell_fronts(rt, &loose, &free, &costs, steps)?;
    }
    Ok(())
}
