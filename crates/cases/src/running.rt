//! Runs the program on a case.

use crate::case::Case;
use pc_base::NoMemory;
use pc_io::{MemorySink, MemorySource};
use pc_top::run;
use std::alloc::Global;

/// Room for more bytes than the output that is wanted has.
const MORE: usize = 65_536;

/// How a run ended, and what it wrote.
#[derive(Drop)]
pub struct Ran {
    pub status: u8,
    pub written: Vec<u8>,
}

impl Ran {
    /// Whether it ended as the case wants it.
    pub fn agrees_with(&self, case: &Case) -> bool {
        self.status == case.status && self.written.as_slice() == case.output.as_slice()
    }
}

/// Runs the program on the words and the input of a case.
pub fn run_case(alloc: Global, case: &Case) -> Result<Ran, NoMemory> {
    let room = match case.room {
        Some(room) => room,
        None => case.output.len().saturating_add(MORE),
    };
    let failing_reads = case.failing_reads.as_slice().to_vec(alloc)?;
    let failing_writes = case.failing_writes.as_slice().to_vec(alloc)?;
    let input = case.input.as_slice().to_vec(alloc)?;
    let mut source = MemorySource::new(input, case.reads.max(1), failing_reads);
    let mut sink = MemorySink::new(alloc, room, failing_writes)?;
    let status = run(alloc, &case.words, &mut source, &mut sink);
    Ok(Ran {
        status,
        written: sink.written().to_vec(alloc)?,
    })
}
