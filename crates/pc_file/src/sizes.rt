//! The limits of a file and of its text, which its printed form keeps too. Those of variables and values are the limits
//! of diagrams.

/// The most costs.
pub const MOST_COSTS: usize = 2;

/// How far a cost of a value may lie from 0.
pub const MOST_COST: i64 = 1_000_000_000;

/// The most rules.
pub const MOST_RULES: usize = 1_024;

/// The most members of an `atmost`, and its greatest number.
pub const MOST_MEMBERS: usize = 64;

/// The most parentheses that are open at once in a printed rule.
pub const MOST_OPEN: u32 = 64;

/// The most bytes of a line of a product text, without its line feed.
pub const LINE_BYTES: usize = 65_536;

/// The most bytes of a product text, with its line feeds.
pub const TEXT_BYTES: usize = 1_048_576;

/// The most words that a plain list goes through.
pub const MOST_WORDS: usize = 65_536;
