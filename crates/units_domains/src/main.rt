//! Shows what boards list of the bike with each kind of bounds, that a board brought forward by a choice and back lists what the
//! board made anew does, refusals included, and the least costs. Its stored output was written by hand.
#![tactic(auto)]

ghost use Rattle.std.specs.Prelude.{◌≡◌, ◌≤◌, ◌<◌};
ghost use Rattle.pc_diagram.specs.NodePaths.{AreChoicesOf, AreCostsOf};

mod forward;
mod leasts;
mod listings;

use anyhow::Result;
use forward::tell_forward;
use leasts::tell_leasts;
use listings::{tell_fault, tell_listing};
use pc_diagram::{Bounds, Choices, Costs, Diagram, Steps, are_choices_of, are_costs_of};
use pc_domains::Board;
use std::marker::Brand;
use std::sync::ledger::{Blank, Ledger};
use units_examples::{bike_costs, bike_diagram, loose_costs, loose_diagram};

fn main(rt: HostRuntime) -> Result<()> {
    tell_all::<Brand>(&rt, Blank::new(1))
}

/// Tells the boards of the bike, and of 19 and of 20 variables without rules where the second cost has a bound.
fn tell_all<L: Ledger>(rt: &HostRuntime, blank: Blank) -> Result<()>
    requires name { blank.name ≡ L.name }
    requires parts { blank.parts ≡ L.parts }
    requires some { 0 < blank.parts }
{
    let mut steps = Steps::<L>::new(blank);
    tell_bike(rt, &mut steps)?;
    tell_loose(rt, 20, &mut steps)
}

/// Tells the boards of the bike without bounds and with each kind of them, and its least costs.
fn tell_bike<L: Ledger>(rt: &HostRuntime, steps: &mut Steps<L>) -> Result<()> {
    let bike = bike_diagram(rt.alloc())?;
    let costs = bike_costs(rt.alloc())?;
    let free = Choices::new(rt.alloc());
    if are_costs_of(bike.domains(), &costs) && are_choices_of(bike.domains(), &free) {
        for bounds in [
            bounds(None, None),
            bounds(Some(600), None),
            bounds(None, Some(2)),
            bounds(Some(600), Some(2)),
            bounds(Some(300), None),
        ] {
            tell_board(rt, &bike, &free, &costs, &bounds, steps)?;
            tell_leasts(rt, &bike, &free, &costs, &bounds, steps)?;
        }
    }
    Ok(())
}

fn bounds(first: Option<i64>, second: Option<i64>) -> Bounds {
    Bounds { first, second }
}

/// Tells what a board lists, and what it lists after each choice; or why there is none.
fn tell_board<L: Ledger>(
    rt: &HostRuntime,
    diagram: &Diagram,
    free: &Choices,
    costs: &Costs,
    bounds: &Bounds,
    steps: &mut Steps<L>,
) -> Result<()>
    requires costs { AreCostsOf diagram.now.domains costs.now }
    requires free { AreChoicesOf diagram.now.domains free.now }
{
    match Board::new(rt.alloc(), diagram, costs, free, bounds, steps) {
        Ok(board) => {
            let listing = board.listing(rt.alloc(), diagram, costs, steps)?;
            tell_listing(rt, &listing)?;
            tell_forward(rt, diagram, costs, &board, &listing, steps)
        }
        Err(fault) => tell_fault(rt, fault),
    }
}

/// Tells the board of so many variables without rules, where the second cost has a bound.
fn tell_loose<L: Ledger>(rt: &HostRuntime, variables: u32, steps: &mut Steps<L>) -> Result<()>
    requires { variables ≤ 20 }
{
    let loose = loose_diagram(rt.alloc(), variables)?;
    let costs = loose_costs(rt.alloc(), variables)?;
    let free = Choices::new(rt.alloc());
    if are_costs_of(loose.domains(), &costs) && are_choices_of(loose.domains(), &free) {
        tell_board(rt, &loose, &free, &costs, &bounds(None, Some(0)), steps)?;
    }
    Ok(())
}
