//! The operations on sets.

ghost use Rattle.std.specs.Prelude.{◌≡◌, [], ◌∷◌, IfOk};
ghost use Rattle.pc_store.specs.Sets.{domains_of, IsIdAt, Keeps};

use anyhow::Result;
use pc_apply::{and, at_most, not, or};
use pc_base::NoMemory;
use pc_store::{Id, Store};

/// What the operations make, over two variables of two values, of the words that begin with the first value and of those
/// that end with it.
pub fn tell_operations(rt: &HostRuntime) -> Result<()> {
    tell_and(rt)?;
    tell_or(rt)?;
    tell_not(rt)?;
    tell_at_most(rt, 1)?;
    tell_at_most(rt, 2)
}

fn tell_and(rt: &HostRuntime) -> Result<()> {
    let mut store = Store::new(rt.alloc(), &[2, 2])?;
    let begin = begins(&mut store)?;
    let end = ends(&mut store)?;
    let both = and(&mut store, begin, end)?;
    println!(rt; "and {}", store.size(both)?)?;
    Ok(())
}

fn tell_or(rt: &HostRuntime) -> Result<()> {
    let mut store = Store::new(rt.alloc(), &[2, 2])?;
    let begin = begins(&mut store)?;
    let end = ends(&mut store)?;
    let either = or(&mut store, begin, end)?;
    println!(rt; "or {}", store.size(either)?)?;
    Ok(())
}

fn tell_not(rt: &HostRuntime) -> Result<()> {
    let mut store = Store::new(rt.alloc(), &[2, 2])?;
    let begin = begins(&mut store)?;
    let other = not(&mut store, begin)?;
    println!(rt; "not {}", store.size(other)?)?;
    Ok(())
}

fn tell_at_most(rt: &HostRuntime, most: u32) -> Result<()> {
    let mut store = Store::new(rt.alloc(), &[2, 2])?;
    let begin = begins(&mut store)?;
    let end = ends(&mut store)?;
    let few = at_most(&mut store, most, &[begin, end])?;
    println!(rt; "at most {most}: {}", store.size(few)?)?;
    Ok(())
}

/// The words that begin with the first value.
fn begins(store: &mut Store) -> Result<Id, NoMemory>
    requires two { domains_of store.old ≡ 2 ∷ 2 ∷ [] }
    ensures is_id { IfOk result (IsIdAt store.new 0) }
    ensures keeps { Keeps store.old store.new }
{
    let children = [store.full(1), store.empty(1)];
    store.node(0, &children)
}

/// The words that end with the first value.
fn ends(store: &mut Store) -> Result<Id, NoMemory>
    requires two { domains_of store.old ≡ 2 ∷ 2 ∷ [] }
    ensures is_id { IfOk result (IsIdAt store.new 0) }
    ensures keeps { Keeps store.old store.new }
{
    let last = [store.full_end(), store.empty(2)];
    let second = store.node(1, &last)?;
    store.node(0, &[second, second])
}
