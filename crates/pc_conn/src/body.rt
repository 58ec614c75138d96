//! What follows a publish.

use pc_file::SharedFile;
use pc_text::Kind;

/// What the lines after the head of a publish give.
#[derive(Debug, Drop)]
pub enum Body {
    /// The text spells this file.
    File(SharedFile),
    /// The first fault of the text, with the number of its line, counted from 1.
    Fault { line: u64, kind: Kind },
    /// The input ended before the text did.
    Cut,
}
