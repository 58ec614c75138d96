//! What a session is asked beside the plain list.

use crate::beside::Beside;
use anyhow::Result;
use pc_diagram::{Steps, Which};
use std::sync::ledger::Ledger;

/// The bounds of a cost, in turn.
const MOSTS: [Option<i64>; 5] = [None, Some(-5), Some(0), Some(3), Some(10)];

/// Gives both costs each of the bounds, and makes choices under them.
pub fn walk_bounds<L: Ledger>(beside: &mut Beside<'_>, steps: &mut Steps<L>) -> Result<()> {
    for most in MOSTS {
        if beside.bound(Which::First, most)? {
            walk_second_bounds(beside, steps)?;
            beside.unbound(Which::First)?;
        }
    }
    Ok(())
}

fn walk_second_bounds<L: Ledger>(beside: &mut Beside<'_>, steps: &mut Steps<L>) -> Result<()> {
    for most in MOSTS {
        if beside.bound(Which::Second, most)? {
            walk_values(beside, steps)?;
            beside.unbound(Which::Second)?;
        }
    }
    Ok(())
}

/// Chooses each listed value and takes the choice back, and does so with all values of its product.
fn walk_values<L: Ledger>(beside: &mut Beside<'_>, steps: &mut Steps<L>) -> Result<()> {
    let listing = beside.listing()?;
    for (variable, items) in listing.as_slice().iter().enumerate() {
        let variable = u32::try_from(variable)?;
        for item in items.as_slice() {
            beside.choose(variable, item.value, steps)?;
            beside.retract(variable, steps)?;
            walk_word(beside, item.word.as_slice(), steps)?;
        }
    }
    Ok(())
}

/// Chooses the values of a product one after the other, and takes the choices back in the same order.
fn walk_word<L: Ledger>(beside: &mut Beside<'_>, word: &[u32], steps: &mut Steps<L>) -> Result<()> {
    for (variable, value) in word.iter().enumerate() {
        beside.choose(u32::try_from(variable)?, *value, steps)?;
    }
    for (variable, _) in word.iter().enumerate() {
        beside.retract(u32::try_from(variable)?, steps)?;
    }
    Ok(())
}
