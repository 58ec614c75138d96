//! Shows what a front keeps of the pairs that are offered to it, the fronts of small diagrams from either end, and that fronts
//! brought forward are those that are made anew. Its stored output was written by hand.
#![tactic(auto)]

ghost use Rattle.std.specs.Prelude.{◌≡◌, ◌≤◌, ◌<◌};

mod ends;
mod forward;
mod offers;

use anyhow::Result;
use ends::{tell_ends, tell_totals};
use forward::tell_forward;
use offers::{tell_bikes, tell_ranks};
use pc_base::crosses_threads;
use pc_diagram::{Choices, Steps, are_choices_of, are_costs_of};
use pc_pareto::{Front, FrontFault, Fronts};
use std::marker::Brand;
use std::sync::ledger::{Blank, Ledger};
use units_examples::{bike_costs, bike_diagram, loose_costs, loose_diagram};

fn main(rt: HostRuntime) -> Result<()> {
    crosses_threads::<Front>();
    crosses_threads::<Fronts>();
    crosses_threads::<FrontFault>();
    tell_bikes(&rt)?;
    tell_ranks(&rt)?;
    tell_diagrams::<Brand>(&rt, Blank::new(1))
}

/// Tells the fronts of the bike, and how many pairs the fronts of 19 and of 20 variables without rules have.
fn tell_diagrams<L: Ledger>(rt: &HostRuntime, blank: Blank) -> Result<()>
    requires name { blank.name ≡ L.name }
    requires parts { blank.parts ≡ L.parts }
    requires some { 0 < blank.parts }
{
    let mut steps = Steps::<L>::new(blank);
    tell_bike(rt, &mut steps)?;
    tell_loose(rt, 19, &mut steps)?;
    tell_loose(rt, 20, &mut steps)
}

/// Tells the fronts of the bike, and those that are brought forward.
fn tell_bike<L: Ledger>(rt: &HostRuntime, steps: &mut Steps<L>) -> Result<()> {
    let bike = bike_diagram(rt.alloc())?;
    let costs = bike_costs(rt.alloc())?;
    let free = Choices::new(rt.alloc());
    if are_costs_of(bike.domains(), &costs) && are_choices_of(bike.domains(), &free) {
        tell_ends(rt, &bike, &free, &costs, steps)?;
        tell_forward(rt, &bike, &free, &costs, steps)?;
    }
    Ok(())
}

/// Tells how many pairs the fronts have from either end, where each of so many variables costs twice as much as the one before,
/// by one cost or by the other.
fn tell_loose<L: Ledger>(rt: &HostRuntime, variables: u32, steps: &mut Steps<L>) -> Result<()>
    requires { variables ≤ 20 }
{
    let loose = loose_diagram(rt.alloc(), variables)?;
    let costs = loose_costs(rt.alloc(), variables)?;
    let free = Choices::new(rt.alloc());
    if are_costs_of(loose.domains(), &costs) && are_choices_of(loose.domains(), &free) {
        tell_totals(rt, &loose, &free, &costs, steps)?;
    }
    Ok(())
}
