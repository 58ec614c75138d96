//! Stored product files.

use anyhow::Result;
use pc_file::SharedFile;
use pc_text::read_file;
use std::fs;

/// The file that the text of a stored product spells.
pub fn stored_file(rt: &HostRuntime, path: &str) -> Result<SharedFile> {
    let text = fs::read_to_string(rt, path)?;
    let file = read_file(rt.alloc(), text.as_bytes())?;
    Ok(SharedFile::new(rt.alloc(), file)?)
}
