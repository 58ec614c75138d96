//! The limits of a text. Those of its bytes are limits of the printed form too.

/// The most lines.
pub const LINES: u64 = 8_192;
