//! Limits of calls, sessions and versions.

/// The most lines that a publish may announce.
pub const MOST_LINES: u64 = 8_192;

/// The most sessions that a caller may have open.
pub const MOST_SESSIONS: usize = 64;

/// The most versions that may be live.
pub const MOST_LIVE: usize = 32;
