//! Tells how much of a script was answered at each read of its input: a caller that waits for an answer gets it before
//! the program waits for the next line. Then the answers to a script that bounds a cost; they were written by hand.
#![tactic(auto)]

mod bounds;
mod watched;

use anyhow::Result;
use bounds::tell_bounds;
use pc_io::{MemorySink, MemorySource};
use pc_script::run_script;
use std::cell::Cell;
use std::rc::Rc;
use watched::{WatchedSink, WatchedSource};

/// Five lines of nine bytes each, so that a read of nine bytes gives one line. Each is answered by 31 bytes.
const SCRIPT: &[u8] = b"1 show 1\n1 show 2\n1 show 3\n1 show 4\n1 show 5\n";

/// The bytes of a line of the script.
const LINE: usize = 9;

/// Room for all answers.
const ROOM: usize = 1024;

fn main(rt: HostRuntime) -> Result<()> {
    tell_reads(&rt)?;
    tell_bounds(&rt)
}

/// Tells at each read how many bytes of answers were written by then.
fn tell_reads(rt: &HostRuntime) -> Result<()> {
    let alloc = rt.alloc();
    let held = Rc::new(alloc, Cell::new(0u64))?;
    let lines = MemorySource::new(SCRIPT.to_vec(alloc)?, LINE, Vec::new(alloc));
    let mut source = WatchedSource::new(lines, held.clone()?, Vec::new(alloc));
    let mut sink = WatchedSink::new(MemorySink::new(alloc, ROOM, Vec::new(alloc))?, held);
    let end = run_script(alloc, &mut source, &mut sink);
    for (read, held) in source.seen().iter().enumerate() {
        println!(rt;
            "at read {}: {held} bytes of answers",
            read.saturating_add(1)
        )?;
    }
    println!(rt; "at the end: {} bytes of answers, {end:?}", sink.written())?;
    Ok(())
}
