//! Prints what lists, spellings, lines and the ends in memory give, where neither a clause nor a command shows it.
//! Each call that may want memory is made once with ample memory, and its answer is printed.
#![tactic(auto)]

mod ends;
mod lines;
mod lists;
mod shown;
mod spellings;

use anyhow::Result;

fn main(rt: HostRuntime) -> Result<()> {
    lists::tell_lists(&rt, rt.alloc())?;
    lists::tell_numbers(&rt, rt.alloc())?;
    spellings::tell_names(&rt)?;
    spellings::tell_known_names(&rt, rt.alloc())?;
    spellings::tell_numbers(&rt)?;
    spellings::tell_words(&rt)?;
    ends::tell_source(&rt, rt.alloc())?;
    ends::tell_sinks(&rt, rt.alloc())?;
    ends::tell_std_ends(&rt)?;
    lines::tell_lines(&rt, rt.alloc())?;
    lines::tell_failed_reads(&rt, rt.alloc())?;
    lines::tell_reads(&rt, rt.alloc())?;
    lines::tell_whole_texts(&rt, rt.alloc())
}
