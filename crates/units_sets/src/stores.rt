//! The calls of a store.

use anyhow::Result;
use pc_store::Store;

/// Over two variables of two values, of the words that end with the first value.
pub fn tell_pairs(rt: &HostRuntime) -> Result<()> {
    tell_again(rt)?;
    tell_sizes(rt)?;
    tell_least_and_most(rt)?;
    tell_child(rt)?;
    tell_children(rt)
}

/// Over a variable of one value and one of 64, of all words.
pub fn tell_wide(rt: &HostRuntime) -> Result<()> {
    tell_domains(rt)?;
    tell_whole(rt)?;
    tell_root(rt)?;
    tell_last_child(rt)
}

/// A set that is made twice is one.
fn tell_again(rt: &HostRuntime) -> Result<()> {
    let mut store = Store::new(rt.alloc(), &[2, 2])?;
    let last = [store.full_end(), store.empty(2)];
    let second = store.node(1, &last)?;
    let again = store.node(1, &last)?;
    println!(rt; "again {}", store.same_set(second, again))?;
    Ok(())
}

fn tell_sizes(rt: &HostRuntime) -> Result<()> {
    let mut store = Store::new(rt.alloc(), &[2, 2])?;
    let last = [store.full_end(), store.empty(2)];
    let second = store.node(1, &last)?;
    let both = store.node(0, &[second, second])?;
    println!(rt; "sizes {} {}", store.size(both)?, store.size(second)?)?;
    Ok(())
}

fn tell_least_and_most(rt: &HostRuntime) -> Result<()> {
    let store = Store::new(rt.alloc(), &[2, 2])?;
    let empty = store.size(store.empty(0))?;
    let full = store.size(store.full(0))?;
    println!(rt; "empty {empty} full {full}")?;
    Ok(())
}

fn tell_child(rt: &HostRuntime) -> Result<()> {
    let mut store = Store::new(rt.alloc(), &[2, 2])?;
    let last = [store.full_end(), store.empty(2)];
    let second = store.node(1, &last)?;
    let both = store.node(0, &[second, second])?;
    println!(rt; "child {}", store.same_set(store.child(both, 1), second))?;
    Ok(())
}

fn tell_children(rt: &HostRuntime) -> Result<()> {
    let mut store = Store::new(rt.alloc(), &[2, 2])?;
    let last = [store.full_end(), store.empty(2)];
    let second = store.node(1, &last)?;
    let children = store.children(1, second.node());
    let first_is = children.node(0) == last[0].node();
    let second_is = children.node(1) == last[0].node();
    println!(rt; "children {first_is} {second_is}")?;
    Ok(())
}

fn tell_domains(rt: &HostRuntime) -> Result<()> {
    let store = Store::new(rt.alloc(), &[1, 64])?;
    println!(rt;
        "variables {} domain {}",
        store.variables(),
        store.domain(1)
    )?;
    Ok(())
}

fn tell_whole(rt: &HostRuntime) -> Result<()> {
    let store = Store::new(rt.alloc(), &[1, 64])?;
    println!(rt; "whole {}", store.size(store.full(1))?)?;
    Ok(())
}

fn tell_root(rt: &HostRuntime) -> Result<()> {
    let mut store = Store::new(rt.alloc(), &[1, 64])?;
    let whole = store.full(1);
    let root = store.node(0, &[whole])?;
    println!(rt; "root {} at layer {}", root == store.full(0), root.layer())?;
    println!(rt; "size {}", store.size(root)?)?;
    Ok(())
}

fn tell_last_child(rt: &HostRuntime) -> Result<()> {
    let store = Store::new(rt.alloc(), &[1, 64])?;
    println!(rt;
        "last child {}",
        store.child(store.full(1), 63) == store.full_end()
    )?;
    Ok(())
}
