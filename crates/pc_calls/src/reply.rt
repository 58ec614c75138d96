//! The reply to a call.

use crate::head::Head;
use pc_diagram::Listing;
use pc_file::SharedFile;

/// A listing, with the file whose variables and values it names.
#[derive(Debug, Drop)]
pub struct Shown {
    pub file: SharedFile,
    pub listing: Listing,
}

/// What a caller gets. A listing is shown where a call about an open session was done.
#[derive(Debug, Drop)]
pub struct Reply {
    pub head: Head,
    pub shown: Option<Shown>,
}
