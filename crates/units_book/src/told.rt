//! What is told of a reply.

use anyhow::Result;
use pc_calls::{Reply, write_reply};

/// Tells the call and the text of its reply.
pub fn tell(rt: &HostRuntime, call: &str, reply: &Reply) -> Result<()> {
    let text = write_reply(rt.alloc(), reply)?;
    print!(rt; "{call}: {}", str::from_utf8(text.as_slice())?)?;
    Ok(())
}
