//! The answer to a call, without a listing.

use crate::dropped::DropList;
use crate::live::LiveList;
use crate::outcome::Outcome;

/// The session and the version that a call was about, 0 where there is none, and what became of it. The live
/// versions are those that were asked for, and what was dropped is what a rebase dropped; else both are empty.
#[derive(Debug, Drop)]
pub struct Head {
    pub session: u64,
    pub version: u64,
    pub outcome: Outcome,
    pub live: LiveList,
    pub dropped: DropList,
}
