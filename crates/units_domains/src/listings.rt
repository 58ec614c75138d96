//! Listings as lines, and whether two are alike.

use anyhow::Result;
use pc_base::Sequence;
use pc_diagram::{Listed, Listing};
use pc_domains::BoardFault;

/// A line for each listed value of each variable: the two, its costs, and its word; and a line `.`.
pub fn tell_listing(rt: &HostRuntime, listing: &Listing) -> Result<()> {
    for (variable, row) in listing.as_slice().iter().enumerate() {
        for item in row.as_slice() {
            print!(rt; "{variable} {}: {} {}", item.value, item.first, item.second)?;
            println!(rt; " {:?}", item.word.as_slice())?;
        }
    }
    println!(rt; ".")?;
    Ok(())
}

/// Why there is no board.
pub fn tell_fault(rt: &HostRuntime, fault: BoardFault) -> Result<()> {
    println!(rt; "{fault}")?;
    Ok(())
}

/// Whether two listings are alike.
pub fn are_alike(listing: &Listing, other: &Listing) -> bool {
    if listing.len() != other.len() {
        return false;
    }
    listing
        .as_slice()
        .iter()
        .zip(other.as_slice().iter())
        .all(|(row, beside)| are_rows_alike(row, beside))
}

fn are_rows_alike(row: &Sequence<Listed>, other: &Sequence<Listed>) -> bool {
    if row.len() != other.len() {
        return false;
    }
    row.as_slice()
        .iter()
        .zip(other.as_slice().iter())
        .all(|(item, beside)| are_items_alike(item, beside))
}

fn are_items_alike(item: &Listed, other: &Listed) -> bool {
    item.value == other.value
        && item.first == other.first
        && item.second == other.second
        && item.word.as_slice() == other.word.as_slice()
}
