//! What a front keeps of pairs that are offered to it.

use anyhow::Result;
use pc_pareto::{Back, Front};

/// Offers four bikes, of which two cost the same: a cheaper one in both costs keeps the others out, and of the two the one
/// that comes first stays.
pub fn tell_bikes(rt: &HostRuntime) -> Result<()> {
    let mut front = Front::new(rt.alloc());
    front.offer((580, 2), path(0, 4))?;
    front.offer((380, 3), path(1, 0))?;
    front.offer((420, 3), path(2, 2))?;
    front.offer((380, 3), path(3, 1))?;
    tell(rt, &front)
}

/// Offers one pair three times: the least rank stays, and of equal ranks the first.
pub fn tell_ranks(rt: &HostRuntime) -> Result<()> {
    let mut front = Front::new(rt.alloc());
    front.offer((1, -1), path(0, 9))?;
    front.offer((1, -1), path(1, 7))?;
    front.offer((1, -1), path(2, 7))?;
    tell(rt, &front)
}

/// A step back at a place, of a path with a rank.
fn path(place: u32, rank: u64) -> Back {
    Back {
        node: 0,
        value: 0,
        place,
        rank,
    }
}

/// Tells the two costs of each item and the place of its step back.
fn tell(rt: &HostRuntime, front: &Front) -> Result<()> {
    for item in front.as_slice() {
        let first = item.first;
        let second = item.second;
        let place = item.back.place;
        println!(rt; "{first} {second}: {place}")?;
    }
    println!(rt; ".")?;
    Ok(())
}
