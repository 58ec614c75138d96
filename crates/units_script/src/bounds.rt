//! A script that bounds a cost and takes the bound back.

use anyhow::Result;
use pc_io::{MemorySink, MemorySource};
use pc_script::run_script;
use std::fs;

/// Room for all answers, and the most bytes of a read.
const ROOM: usize = 4_096;

/// Prints what a stored script is answered, and how it ends.
pub fn tell_bounds(rt: &HostRuntime) -> Result<()> {
    let alloc = rt.alloc();
    let script = fs::read_to_string(rt, "bounds.script")?;
    let mut source = MemorySource::new(script.into_bytes(), ROOM, Vec::new(alloc));
    let mut sink = MemorySink::new(alloc, ROOM, Vec::new(alloc))?;
    let end = run_script(alloc, &mut source, &mut sink);
    print!(rt; "{}", str::from_utf8(sink.written())?)?;
    println!(rt; "{end:?}")?;
    Ok(())
}
