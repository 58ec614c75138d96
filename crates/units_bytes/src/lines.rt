//! Lines that are cut off a source.

use crate::shown::shown;
use anyhow::Result;
use pc_base::{NoMemory, Text};
use pc_io::{LineFault, Lines, MemorySource, whole_text};
use std::alloc::Global;

/// The most bytes of a line here.
const LINE_LIMIT: u64 = 4;

/// The most bytes of all lines here.
const TOTAL_LIMIT: u64 = 6;

/// Bytes within the limits, and others.
const TEXTS: [&[u8]; 10] = [
    b"",
    b"\n\na",
    b"ab\ncd\n",
    b"ab\ncde",
    b"abcd",
    b"abcde",
    b"a\nbcdef",
    b"ab\ncdef",
    b"ab\ncde\n",
    b"abcde\n",
];

/// The lines of a source, each in brackets, and then its end or fault; a fault is asked for twice.
fn cut(alloc: Global, source: &mut MemorySource) -> Result<Text, NoMemory> {
    let mut text = Text::new(alloc);
    let mut lines = Lines::new(alloc, LINE_LIMIT, TOTAL_LIMIT)?;
    for _ in 0..8u8 {
        match lines.next(source) {
            Ok(Some(line)) => {
                text.push(b'[')?;
                text.extend_from_slice(line.as_slice())?;
                text.push(b']')?;
            }
            Ok(None) => {
                text.extend_from_slice(b" end")?;
                return Ok(text);
            }
            Err(fault) => {
                push_fault(alloc, &mut text, fault)?;
                if lines.next(source).is_ok() {
                    text.extend_from_slice(b", and goes on")?;
                }
                return Ok(text);
            }
        }
    }
    Ok(text)
}

fn push_fault(alloc: Global, text: &mut Text, fault: LineFault) -> Result<(), NoMemory> {
    let message = format!(in alloc; " {fault}")?;
    text.extend_from_slice(message.as_bytes())
}

/// The lines of some bytes within small limits, by short and by long reads.
pub fn tell_lines(rt: &impl Print, alloc: Global) -> Result<()> {
    for bytes in &TEXTS {
        for most in [1usize, 2, 9] {
            let mut source = MemorySource::new(bytes.to_vec(alloc)?, most, Vec::new(alloc));
            println!(rt;
                "{:?} by {most}: {}",
                shown(bytes),
                shown(cut(alloc, &mut source)?.as_slice())
            )?;
        }
    }
    Ok(())
}

/// The lines of `ab` and `cd`, two bytes a read, where one read fails.
pub fn tell_failed_reads(rt: &impl Print, alloc: Global) -> Result<()> {
    for failing in 0..4u64 {
        let bytes = b"ab\ncd".to_vec(alloc)?;
        let mut source = MemorySource::new(bytes, 2, [failing].to_vec(alloc)?);
        println!(rt;
            "read {failing} fails: {}",
            shown(cut(alloc, &mut source)?.as_slice())
        )?;
    }
    Ok(())
}

/// How many reads there were when each line was answered: no answer waits for bytes that it doesn't need.
pub fn tell_reads(rt: &impl Print, alloc: Global) -> Result<()> {
    let mut source = MemorySource::new(b"ab\ncd\ne\n".to_vec(alloc)?, 3, Vec::new(alloc));
    let mut lines = Lines::new(alloc, 9, 9)?;
    for _ in 0..4u8 {
        match lines.next(&mut source)? {
            Some(line) => println!(rt;
                "line {} after {} reads",
                shown(line.as_slice()),
                source.reads()
            )?,
            None => println!(rt; "the end after {} reads", source.reads())?,
        }
    }
    Ok(())
}

/// Whole texts within small limits.
pub fn tell_whole_texts(rt: &impl Print, alloc: Global) -> Result<()> {
    for bytes in &TEXTS {
        let mut source = MemorySource::new(bytes.to_vec(alloc)?, 2, Vec::new(alloc));
        match whole_text(alloc, &mut &mut source, LINE_LIMIT, TOTAL_LIMIT) {
            Ok(text) => println!(rt; "whole {:?}", shown(text.as_slice()))?,
            Err(fault) => println!(rt; "not whole: {fault}")?,
        }
    }
    let mut source = MemorySource::new(b"ab\ncd\n".to_vec(alloc)?, 2, [2u64].to_vec(alloc)?);
    match whole_text(alloc, &mut source, LINE_LIMIT, TOTAL_LIMIT) {
        Ok(text) => println!(rt; "whole {:?}", shown(text.as_slice()))?,
        Err(fault) => println!(rt; "not whole: {fault}")?,
    }
    Ok(())
}
