//! What is read of a diagram's text.

use pc_diagram::RawDiagram;

/// What the lines of a text are.
#[derive(Debug, Drop)]
pub enum Dump {
    /// The text of these tables, whatever else may be wrong with them.
    Tables(RawDiagram),
    /// The lines before this one, counted from 1, begin the text of some tables, and with it they begin none. It is the
    /// number of lines plus 1 where the lines end early.
    Misfit { line: u64 },
}
