//! What a session that moves to another version gives.

use crate::session::Session;
use pc_calls::{DropList, Outcome};
use pc_diagram::Listing;

/// The session at the other version, with its listing and what was dropped on the way, or the refusal.
#[derive(Debug, Drop)]
pub enum Rebased {
    Ready(Session, Listing, DropList),
    Refused(Outcome),
}
