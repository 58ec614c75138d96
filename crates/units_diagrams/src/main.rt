//! Shows diagrams and the plain listing on small examples: the diagram of the bikes, each fault of tables, and what is
//! listed of a few words. Its stored output was written by hand.
#![tactic(auto)]

ghost use Rattle.std.specs.Prelude.{◌≡◌, ◌<◌};

mod listings;
mod tables;

use anyhow::Result;
use listings::{tell_bikes, tell_ties};
use pc_base::crosses_threads;
use pc_diagram::{Diagram, DiagramFault, Listing, RawDiagram};
use std::marker::Brand;
use std::sync::ledger::Blank;
use tables::{bike_tables, tell_diagram, tell_faults};

fn main(rt: HostRuntime) -> Result<()> {
    crosses_threads::<Diagram>();
    crosses_threads::<DiagramFault>();
    crosses_threads::<Listing>();
    crosses_threads::<RawDiagram>();
    let wheels = [Some(0), Some(0), Some(1), Some(1), None, Some(1)];
    let lights = [Some(0), None, Some(0), Some(0)];
    let bike = Diagram::check(rt.alloc(), bike_tables(rt.alloc(), &wheels, &lights)?)?;
    tell_diagram::<Brand>(&rt, &bike, Blank::new(1))?;
    tell_faults(&rt)?;
    tell_bikes(&rt)?;
    tell_ties(&rt)
}
