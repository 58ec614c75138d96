//! Measures the set operations: how many nodes sets have that are built of many others, and how long that takes. With
//! no argument it builds small sets and tells their sizes alone. With a number, from 1 to 32, it builds sets over that
//! many pairs of variables, and tells times and the most memory that it had.
#![tactic(auto)]

ghost use Rattle.std.specs.Prelude.{◌<◌, ◌≤◌, IfOk, IfSome};

mod build;

use anyhow::Result;
use build::{first_values, same_pairs, store_of};
use pc_apply::at_most;
use std::time::{Duration, Instant};
use std::{env, fs, io};

/// The pairs, and the variables of eight values, of the small sets.
const SMALL: u32 = 4;

/// How often a short operation is measured.
const ROUNDS: u32 = 32;

/// The nodes of a set, and how long it took to get it.
#[derive(Clone, Copy)]
struct Measured {
    nodes: u64,
    time: Duration,
}

fn main(rt: HostRuntime) -> Result<()> {
    match pairs(&rt)? {
        Some(pairs) => measure(&rt, pairs),
        None => tell_small(&rt),
    }
}

/// Tells the nodes of small sets.
fn tell_small(rt: &HostRuntime) -> Result<()> {
    let mut store = store_of(rt.alloc(), 2, 2 * SMALL)?;
    let same = same_pairs(&mut store, SMALL)?;
    println!(rt; "{SMALL} pairs alike: {} nodes", store.size(same)?)?;
    let mut store = store_of(rt.alloc(), 8, SMALL)?;
    let members = first_values(&mut store)?;
    let few = at_most(&mut store, 3, members.as_slice())?;
    println!(rt; "at most 3 of {SMALL}: {} nodes", store.size(few)?)?;
    Ok(())
}

/// The number that the first argument gives, if there is one from 1 to 32.
fn pairs(rt: &HostRuntime) -> io::Result<Option<u32>>
    ensures { IfOk result (λ found. IfSome found (λ n. (0 < n) × (n ≤ 32))) }
{
    for word in env::args(rt)?.skip(1) {
        if let Ok(n) = word.as_str().parse::<u32>() {
            if 0 < n && n <= 32 {
                return Ok(Some(n));
            }
        }
    }
    Ok(None)
}

/// Tells nodes and times, and the most memory that the process had.
fn measure(rt: &HostRuntime, pairs: u32) -> Result<()>
    requires some { 0 < pairs }
    requires few { pairs ≤ 32 }
{
    measure_pairs(rt, pairs)?;
    measure_few(rt)?;
    let status = fs::read_to_string(rt, "/proc/self/status")?;
    for line in status.as_str().lines() {
        if line.starts_with("VmHWM") {
            println!(rt; "{line}")?;
        }
    }
    Ok(())
}

/// Tells the nodes of the words whose pairs are alike, and how long it took to build their sets and join them.
fn measure_pairs(rt: &HostRuntime, pairs: u32) -> Result<()>
    requires some { 0 < pairs }
    requires few { pairs ≤ 32 }
{
    let mut store = store_of(rt.alloc(), 2, 2 * pairs)?;
    let start = Instant::now(rt)?;
    let same = same_pairs(&mut store, pairs)?;
    let time = start.elapsed(rt)?;
    println!(rt;
        "{pairs} pairs alike: {} nodes in {time:?}",
        store.size(same)?
    )?;
    Ok(())
}

/// Tells the nodes of the words over 64 variables of eight values of which at most three take their first value, and
/// how long that one operation took: the first time, and the least of several times, each in a store of its own.
fn measure_few(rt: &HostRuntime) -> Result<()> {
    let first = few_of_many(rt)?;
    let mut least = first.time;
    for _ in 1..ROUNDS {
        least = least.min(few_of_many(rt)?.time);
    }
    println!(rt;
        "at most 3 of 64: {} nodes in {:?}, again in {least:?}",
        first.nodes, first.time
    )?;
    Ok(())
}

/// The same once.
fn few_of_many(rt: &HostRuntime) -> Result<Measured> {
    let mut store = store_of(rt.alloc(), 8, 64)?;
    let members = first_values(&mut store)?;
    let start = Instant::now(rt)?;
    let few = at_most(&mut store, 3, members.as_slice())?;
    let time = start.elapsed(rt)?;
    Ok(Measured {
        nodes: store.size(few)?,
        time,
    })
}
