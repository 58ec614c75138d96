//! Stored product files, and sessions over their versions.

use anyhow::Result;
use pc_build::{SharedVersion, compile};
use pc_diagram::Listing;
use pc_file::SharedFile;
use pc_session::Session;
use pc_text::read_file;
use std::alloc::Global;
use std::fs;

/// The file that the text of a stored product spells.
pub fn stored_file(rt: &HostRuntime, path: &str) -> Result<SharedFile> {
    let text = fs::read_to_string(rt, path)?;
    let file = read_file(rt.alloc(), text.as_bytes())?;
    Ok(SharedFile::new(rt.alloc(), file)?)
}

/// A session over the compiled version of a file, and its listing.
pub fn opened(alloc: Global, file: SharedFile) -> Result<(Session, Listing)> {
    let version = SharedVersion::new(alloc, compile(alloc, file)?)?;
    Ok(Session::start(alloc, 1, version, 1)?)
}
