//! Reads a file of cases.

use crate::case::Case;
use crate::line::Line;
use anyhow::{Context, Result, bail};
use std::alloc::Global;

/// The cases of a file, in order.
pub fn read_cases(alloc: Global, text: &[u8]) -> Result<Vec<Case>> {
    let mut cases = Vec::new(alloc);
    let mut open = None;
    for (before, bytes) in text.split(|byte| *byte == b'\n').enumerate() {
        let line = Line::read(bytes).context(format_args!("after line {before}"))?;
        let next = after_line(alloc, open, line).context(format_args!("after line {before}"))?;
        open = match next {
            Next::Open(case) => Some(case),
            Next::Closed => None,
            Next::Whole(case) => {
                cases.push(case)?;
                None
            }
        };
    }
    if open.is_some() {
        bail!("the last case has no status");
    }
    Ok(cases)
}

/// What a line leaves.
enum Next {
    /// No case is open.
    Closed,
    /// This case is open.
    Open(Case),
    /// This case ended.
    Whole(Case),
}

/// What a line leaves of the case that is open before it, if there is one.
fn after_line(alloc: Global, open: Option<Case>, line: Line<'_>) -> Result<Next> {
    match (open, line) {
        (None, Line::Nothing) => Ok(Next::Closed),
        (None, Line::Case(name)) => Ok(Next::Open(Case::new(alloc, name.to_vec(alloc)?))),
        (None, _) => bail!("no case is open"),
        (Some(mut case), Line::Status(status)) => {
            case.status = u8::try_from(status)?;
            Ok(Next::Whole(case))
        }
        (Some(mut case), line) => {
            case.take_line(alloc, line)?;
            Ok(Next::Open(case))
        }
    }
}
