//! Boards that are brought forward.

ghost use Rattle.std.specs.Prelude.{◌≡◌, ◌<◌, length, slice_index, false};
ghost use Rattle.pc_diagram.specs.Choices.{is_chosen};
ghost use Rattle.pc_domains.specs.Boards.{IsBoardOf};

use crate::listings::are_alike;
use anyhow::Result;
use pc_diagram::{Costs, Diagram, Listing, Steps, are_choices_of};
use pc_domains::{Board, BoardFault};
use std::alloc::Global;
use std::sync::ledger::Ledger;

/// A line for each value of each variable that isn't chosen: what becomes of the board where the value is chosen, and whether the
/// board brought forward and the one made anew are alike; and, where there is one, whether the board is as before when that
/// choice is taken back. And a line `.`.
pub fn tell_forward<L: Ledger>(
    rt: &HostRuntime,
    diagram: &Diagram,
    costs: &Costs,
    board: &Board,
    listing: &Listing,
    steps: &mut Steps<L>,
) -> Result<()>
    requires { IsBoardOf diagram.now costs.now board.now }
{
    let domains = diagram.domains();
    for (variable, domain) in domains.iter().enumerate() {
        for value in 0..*domain {
            if !board.choices.is_chosen(variable as u32) {
                tell_value(
                    rt,
                    diagram,
                    costs,
                    board,
                    listing,
                    variable as u32,
                    value,
                    steps,
                )?;
            }
        }
    }
    println!(rt; ".")?;
    Ok(())
}

/// The line of one value.
fn tell_value<L: Ledger>(
    rt: &HostRuntime,
    diagram: &Diagram,
    costs: &Costs,
    board: &Board,
    listing: &Listing,
    variable: u32,
    value: u32,
    steps: &mut Steps<L>,
) -> Result<()>
    requires board { IsBoardOf diagram.now costs.now board.now }
    requires variable { variable < length diagram.now.domains }
    requires value { value < slice_index diagram.now.domains variable }
    requires free { is_chosen board.now.choices variable ≡ false }
{
    let alloc = rt.alloc();
    let there = forward(alloc, diagram, costs, board, variable, value, steps);
    let anew = made_anew(alloc, diagram, costs, board, variable, value, steps);
    print!(rt; "{variable} {value}:")?;
    match &there {
        Ok(_) => {
            let back = there_and_back(alloc, diagram, costs, board, variable, value, steps);
            print!(rt; " as made anew {}", are_outcomes_alike(&there, &anew))?;
            println!(rt; ", as before {}", is_listing(&back, listing))?;
        }
        Err(fault) => println!(rt;
            " {fault}, as made anew {}",
            are_outcomes_alike(&there, &anew)
        )?,
    }
    Ok(())
}

/// What the board lists where a value is chosen, brought forward.
fn forward<L: Ledger>(
    alloc: Global,
    diagram: &Diagram,
    costs: &Costs,
    board: &Board,
    variable: u32,
    value: u32,
    steps: &mut Steps<L>,
) -> Result<Listing, BoardFault>
    requires board { IsBoardOf diagram.now costs.now board.now }
    requires variable { variable < length diagram.now.domains }
    requires value { value < slice_index diagram.now.domains variable }
    requires free { is_chosen board.now.choices variable ≡ false }
{
    let board = board.with_choice(alloc, diagram, costs, variable, value, steps)?;
    Ok(board.listing(alloc, diagram, costs, steps)?)
}

/// What it lists where that choice is taken back.
fn there_and_back<L: Ledger>(
    alloc: Global,
    diagram: &Diagram,
    costs: &Costs,
    board: &Board,
    variable: u32,
    value: u32,
    steps: &mut Steps<L>,
) -> Result<Listing, BoardFault>
    requires board { IsBoardOf diagram.now costs.now board.now }
    requires variable { variable < length diagram.now.domains }
    requires value { value < slice_index diagram.now.domains variable }
    requires free { is_chosen board.now.choices variable ≡ false }
{
    let board = board.with_choice(alloc, diagram, costs, variable, value, steps)?;
    if !board.choices.is_chosen(variable) {
        return Err(BoardFault::NoFit);
    }
    let board = board.without_choice(alloc, diagram, costs, variable, steps)?;
    Ok(board.listing(alloc, diagram, costs, steps)?)
}

/// What a board with the value chosen lists that is made anew, with the bounds of this one.
fn made_anew<L: Ledger>(
    alloc: Global,
    diagram: &Diagram,
    costs: &Costs,
    board: &Board,
    variable: u32,
    value: u32,
    steps: &mut Steps<L>,
) -> Result<Listing, BoardFault>
    requires board { IsBoardOf diagram.now costs.now board.now }
    requires free { is_chosen board.now.choices variable ≡ false }
{
    let chosen = board.choices.with(alloc, variable, value)?;
    if !are_choices_of(diagram.domains(), &chosen) {
        return Err(BoardFault::NoFit);
    }
    let board = Board::new(alloc, diagram, costs, &chosen, &board.bounds, steps)?;
    Ok(board.listing(alloc, diagram, costs, steps)?)
}

/// Whether both are the same listing, or the same fault.
fn are_outcomes_alike(
    outcome: &Result<Listing, BoardFault>,
    other: &Result<Listing, BoardFault>,
) -> bool {
    match (outcome, other) {
        (Ok(listing), _) => is_listing(other, listing),
        (Err(fault), Err(beside)) => fault == beside,
        _ => false,
    }
}

/// Whether this is the listing, and no fault.
fn is_listing(outcome: &Result<Listing, BoardFault>, listing: &Listing) -> bool {
    match outcome {
        Ok(other) => are_alike(listing, other),
        Err(_) => false,
    }
}
