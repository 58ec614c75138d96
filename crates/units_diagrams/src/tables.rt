//! Tables of diagrams, and of none.

ghost use Rattle.std.specs.Prelude.{◌≡◌, ◌<◌};

use anyhow::Result;
use pc_base::{NoMemory, Sequence};
use pc_diagram::{Diagram, RawDiagram, Steps};
use std::alloc::Global;
use std::sync::ledger::{Blank, Ledger};

/// The tables of the bikes with these edges for the wheel and for the light.
pub fn bike_tables(
    alloc: Global,
    wheels: &[Option<u32>],
    lights: &[Option<u32>],
) -> Result<RawDiagram, NoMemory> {
    tables_of(
        alloc,
        &[3, 2, 2],
        &[1, 3, 2, 1],
        &[&[Some(0), Some(1), Some(2)], wheels, lights],
    )
}

/// Tells the edges of each node before the last layer: its layer, its number and its edges.
pub fn tell_diagram<L: Ledger>(rt: &HostRuntime, diagram: &Diagram, blank: Blank) -> Result<()>
    requires name { blank.name ≡ L.name }
    requires parts { blank.parts ≡ L.parts }
    requires some { 0 < blank.parts }
{
    let mut steps = Steps::<L>::new(blank);
    let domains = diagram.domains();
    for (variable, domain) in domains.iter().enumerate() {
        let variable = variable as u32;
        for node in 0..diagram.nodes(variable) {
            print!(rt; "{variable} {node}:")?;
            for value in 0..*domain {
                match diagram.edge(variable, node, value, &mut steps) {
                    Some(target) => print!(rt; " {target}")?,
                    None => print!(rt; " -")?,
                }
            }
            println!(rt;)?;
        }
    }
    Ok(())
}

/// Tells the fault of tables that differ in one thing from those of a diagram, one of each kind in their order.
pub fn tell_faults(rt: &HostRuntime) -> Result<()> {
    let alloc = rt.alloc();
    let wheels = [Some(0), Some(0), Some(1), Some(1), None, Some(1)];
    let lights = [Some(0), None, Some(0), Some(0)];
    tell_fault(rt, bike_tables(alloc, &wheels, &[Some(0), None, Some(0)])?)?;
    let leading_out = [Some(0), Some(0), Some(1), Some(1), None, Some(2)];
    tell_fault(rt, bike_tables(alloc, &leading_out, &lights)?)?;
    tell_fault(
        rt,
        bike_tables(alloc, &wheels, &[Some(0), None, None, None])?,
    )?;
    let to_one = [Some(0), Some(0), Some(0), None, None, Some(0)];
    tell_fault(rt, bike_tables(alloc, &to_one, &lights)?)?;
    let twins = [&[Some(0), Some(1)], [Some(0), Some(0)].as_slice()];
    tell_fault(rt, tables_of(alloc, &[2, 1], &[1, 2, 1], &twins)?)?;
    let swapped = [Some(1), Some(1), Some(0), Some(0), None, Some(0)];
    let swapped_lights = [Some(0), Some(0), Some(0), None];
    tell_fault(rt, bike_tables(alloc, &swapped, &swapped_lights)?)
}

/// Tells what is wrong with tables.
fn tell_fault(rt: &HostRuntime, raw: RawDiagram) -> Result<()> {
    match Diagram::check(rt.alloc(), raw) {
        Ok(_) => println!(rt; "a diagram")?,
        Err(fault) => println!(rt; "{fault}")?,
    }
    Ok(())
}

fn tables_of(
    alloc: Global,
    domains: &[u32],
    sizes: &[u32],
    tables: &[&[Option<u32>]],
) -> Result<RawDiagram, NoMemory> {
    let mut edges = Sequence::new(alloc);
    for table in tables {
        edges.push(Sequence::from_slice(alloc, table)?)?;
    }
    Ok(RawDiagram {
        domains: Sequence::from_slice(alloc, domains)?,
        sizes: Sequence::from_slice(alloc, sizes)?,
        edges,
    })
}
