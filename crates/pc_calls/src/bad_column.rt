//! Where a line goes wrong.

use thiserror::Error;

/// The first word that is wrong begins at this column, counted from 1 in the whole line; where a word is missing, it
/// is the line's length plus 1.
#[derive(Clone, Copy, Debug, PartialEq, Eq, Error)]
#[error("wrong at column {column}")]
pub struct BadColumn {
    pub column: u64,
}
