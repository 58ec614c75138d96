//! What memory the process has.

use std::{fs, io};

/// The memory in kilobytes, as the system tells it, or 0.
pub fn memory(rt: &HostRuntime) -> io::Result<u64> {
    let status = fs::read_to_string(rt, "/proc/self/status")?;
    for line in status.as_str().lines() {
        if line.starts_with("VmRSS:") {
            for word in line.split_whitespace() {
                if let Ok(kilobytes) = word.parse::<u64>() {
                    return Ok(kilobytes);
                }
            }
        }
    }
    Ok(0)
}
