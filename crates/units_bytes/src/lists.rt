//! Lists, and numbers as text.

use crate::shown::shown;
use anyhow::Result;
use pc_base::{NoMemory, Reserved, Sequence, Text, signed_width, unsigned_width};
use std::alloc::Global;

/// A list that grows and shrinks, one whose places were taken before, and the message of want of memory.
pub fn tell_lists(rt: &impl Print, alloc: Global) -> Result<()> {
    let mut list = Sequence::with_capacity(alloc, 2)?;
    list.push(7u32)?;
    list.extend_from_slice(&[8, 9])?;
    println!(rt; "list {:?}", list.as_slice())?;
    println!(rt; "off it {:?}", list.pop())?;
    let mut places = Reserved::with_capacity(alloc, 1)?;
    places.push(4u32);
    places.reserve(2)?;
    places.push(5);
    places.push(6);
    println!(rt; "places {:?}", places.into_sequence().as_slice())?;
    println!(rt; "{NoMemory}")?;
    Ok(())
}

/// Numbers in decimal, and how many bytes they have.
pub fn tell_numbers(rt: &impl Print, alloc: Global) -> Result<()> {
    let mut text = Text::from_slice(alloc, b"at ")?;
    text.push_unsigned(u64::MAX)?;
    text.push(b' ')?;
    text.push_signed(i64::MIN)?;
    text.push(b' ')?;
    text.push_signed(0)?;
    println!(rt; "{}", shown(text.as_slice()))?;
    for number in [0, 9, 10, u64::MAX] {
        println!(rt; "{number} has {} bytes", unsigned_width(number))?;
    }
    for number in [0, -1, -10, i64::MIN] {
        println!(rt; "{number} has {} bytes", signed_width(number))?;
    }
    Ok(())
}
