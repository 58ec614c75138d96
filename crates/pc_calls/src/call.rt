//! The calls.

use pc_file::SharedFile;
use pc_names::Name;

/// What a caller asks for. Sessions are numbered by their caller from 1 on, and versions from 1 on.
#[derive(Debug, Drop)]
pub enum Call {
    /// Becomes a caller.
    Enter,
    /// Opens a session at the current version.
    Open,
    /// Asks for a session's listing.
    Show {
        session: u64,
    },
    /// Chooses a value for a variable.
    Choose {
        session: u64,
        variable: Name,
        value: Name,
    },
    /// Takes back the choice of a variable.
    Retract {
        session: u64,
        variable: Name,
    },
    /// Bounds a cost.
    Bound {
        session: u64,
        cost: Name,
        most: i64,
    },
    /// Takes back the bound of a cost.
    Unbound {
        session: u64,
        cost: Name,
    },
    /// Moves a session to another version. What that version lacks is refused, or dropped.
    Rebase {
        session: u64,
        version: u64,
        dropping: bool,
    },
    /// Ends a session.
    Close {
        session: u64,
    },
    /// Makes a file the next version, over the version that its writer knew.
    Publish {
        base: u64,
        file: SharedFile,
    },
    /// Ends the life of a version.
    Reclaim {
        version: u64,
    },
    /// Asks for the live versions.
    Versions,
    /// Is a caller no more.
    Leave,
}
