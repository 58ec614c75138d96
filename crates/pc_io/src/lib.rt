//! The ends of the outside that the program reads and writes: sources and sinks of bytes, in memory and over
//! std, and the cutting of a source into lines. Each fault is one that the end counted, bytes are exactly those
//! that an end tells, and no call of this crate runs on over an endless source.
#![tactic(auto)]

mod calls;
mod cutting;
mod failed;
pub mod laws;
mod line_fault;
mod lines;
mod memory_sink;
mod memory_source;
mod pending;
mod put;
mod reading;
mod sink;
mod source;
mod std_sink;
mod std_source;
mod whole;

pub use failed::Failed;
pub use line_fault::LineFault;
pub use lines::{Lines, MOST_LINE_BYTES};
pub use memory_sink::MemorySink;
pub use memory_source::MemorySource;
pub use put::put_all;
pub use sink::Sink;
pub use source::Source;
pub use std_sink::StdSink;
pub use std_source::StdSource;
pub use whole::whole_text;
