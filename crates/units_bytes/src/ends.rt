//! Sources and sinks.

use crate::shown::shown;
use anyhow::Result;
use pc_io::{Failed, MemorySink, MemorySource, Sink, Source, StdSink, StdSource, put_all};
use std::alloc::Global;

/// Six reads of `abcde` into three bytes, two bytes a read, of which the second and the fifth fail.
pub fn tell_source(rt: &impl Print, alloc: Global) -> Result<()> {
    let bytes = b"abcde".to_vec(alloc)?;
    let mut source = MemorySource::new(bytes, 2, [1u64, 4].to_vec(alloc)?);
    let mut into = *b"...";
    for _ in 0..6u8 {
        let answer = source.read(&mut into);
        println!(rt; "read {:?} {}", answer, shown(&into))?;
    }
    Ok(())
}

/// Writes to a sink of three bytes, and to sinks of which one write fails.
pub fn tell_sinks(rt: &impl Print, alloc: Global) -> Result<()> {
    let mut full = MemorySink::new(alloc, 3, Vec::new(alloc))?;
    let whole = put_all(&mut full, b"abcd");
    println!(rt; "put {:?}, {}", whole, shown(full.written()))?;
    let none = full.write(b"");
    let more = full.write(b"d");
    println!(rt; "write {:?} {:?}", none, more)?;
    for failing in 0..3u64 {
        let mut sink = MemorySink::new(alloc, 4, [failing].to_vec(alloc)?)?;
        let first = put_all(&mut sink, b"ab");
        let second = put_all(&mut &mut sink, b"cd");
        println!(rt; "put {:?} {:?}, {}", first, second, shown(sink.written()))?;
    }
    println!(rt; "{Failed}")?;
    Ok(())
}

/// The ends over a reader and a writer of std.
pub fn tell_std_ends(rt: &impl Print) -> Result<()> {
    let mut source = StdSource::new(b"abc".as_slice());
    let mut into = *b"..";
    for _ in 0..3u8 {
        let answer = source.read(&mut into);
        println!(rt; "std read {:?} {}", answer, shown(&into))?;
    }
    let mut room = *b"...";
    let mut sink = StdSink::new(room.as_mut_slice());
    let whole = put_all(&mut sink, b"abc");
    let more = sink.write(b"d");
    println!(rt; "std put {:?} {:?}", whole, more)?;
    println!(rt; "{}", shown(&room))?;
    Ok(())
}
