//! What holds of the types of this crate.

use crate::failed::Failed;
use crate::line_fault::LineFault;
use crate::lines::Lines;
use crate::memory_sink::MemorySink;
use crate::memory_source::MemorySource;
use pc_base::crosses_threads;

/// The ends in memory, and what cuts lines, go to other threads.
pub fn ends_cross_threads() {
    crosses_threads::<Failed>();
    crosses_threads::<MemorySource>();
    crosses_threads::<MemorySink>();
    crosses_threads::<LineFault>();
    crosses_threads::<Lines>();
}
