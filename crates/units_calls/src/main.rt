//! Tells how command lines are read and how heads are written, for calls that no script makes yet too.
#![tactic(auto)]

mod heads;
mod lines;

use anyhow::Result;

fn main(rt: HostRuntime) -> Result<()> {
    lines::tell(&rt)?;
    heads::tell(&rt)
}
