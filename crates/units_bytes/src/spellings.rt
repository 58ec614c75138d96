//! Names, numbers and words of a line.

use crate::shown::shown;
use anyhow::Result;
use pc_names::{Name, Names, cut_word, read_int, read_unsigned};
use std::alloc::Global;

/// Spellings of names, and others.
const NAMES: [&[u8]; 15] = [
    b"a",
    b"z_9",
    b"frame",
    b"a123456789_123456789_123456789_1",
    b"a123456789_123456789_123456789_12",
    b"",
    b"A",
    b"aB",
    b"1a",
    b"_a",
    b"a-b",
    b" a",
    b"a\0",
    b"`",
    b"{",
];

/// Spellings of numbers, and others.
const NUMBERS: [&[u8]; 17] = [
    b"0",
    b"-1",
    b"1000000000",
    b"9223372036854775807",
    b"-9223372036854775808",
    b"9223372036854775808",
    b"-9223372036854775809",
    b"100000000000000000000000",
    b"",
    b"-",
    b"-0",
    b"+1",
    b"01",
    b"-01",
    b"1a",
    b" 1",
    b"\xff",
];

/// Which bytes spell a name.
pub fn tell_names(rt: &impl Print) -> Result<()> {
    for spelling in &NAMES {
        match Name::read(spelling) {
            Ok(name) => println!(rt; "name {}", shown(name.as_bytes()))?,
            Err(fault) => println!(rt; "{fault}: {:?}", shown(spelling))?,
        }
    }
    Ok(())
}

/// Names that are found by their spelling.
pub fn tell_known_names(rt: &impl Print, alloc: Global) -> Result<()> {
    let first = Name::read(b"wheel")?;
    let second = Name::read(b"wheels")?;
    let twice = Names::of(alloc, &[first, second, first])?;
    println!(rt; "a name twice gives names: {}", twice.is_some())?;
    let mut names = Names::new(alloc);
    let added = names.add(first)?;
    let again = names.add(first)?;
    println!(rt; "added {added} {again}")?;
    println!(rt;
        "places {:?} {:?}",
        names.position(&first),
        names.position(&second)
    )?;
    Ok(())
}

/// Which bytes spell a number of 64 bits, and which one that isn't negative.
pub fn tell_numbers(rt: &impl Print) -> Result<()> {
    for spelling in &NUMBERS {
        println!(rt;
            "{:?} is {:?}, {:?}",
            shown(spelling),
            read_int(spelling),
            read_unsigned(spelling)
        )?;
    }
    Ok(())
}

/// The first word of lines, and what comes after it.
pub fn tell_words(rt: &impl Print) -> Result<()> {
    for line in [b"".as_slice(), b"  ", b"one", b"  one two ", b"one  two"] {
        let (word, after) = cut_word(line);
        println!(rt;
            "{:?} begins {:?} {:?}",
            shown(line),
            shown(word),
            shown(after)
        )?;
    }
    Ok(())
}
