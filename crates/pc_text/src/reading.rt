//! Reading a text from its first line to its last.

ghost use Rattle.std.specs.Prelude.{◌≡◌};
ghost use Rattle.pc_text.specs.FirstFault.{end_fault, first_fault, give_line, given_by, is_large, line_fault};
ghost use Rattle.pc_text.specs.Draft.{given_of};
ghost use Rattle.pc_text.specs.Told.{TellsAt, ReadsText};

use crate::draft::Draft;
use crate::keyword::Keyword;
use crate::limits::LINES;
use crate::statement_fault::StatementFault;
use crate::text_fault::TextFault;
use pc_base::cut_line;
use pc_file::{LINE_BYTES, TEXT_BYTES};
use pc_rules::Kind;
use std::alloc::Global;

/// What all lines of a text give, or the first fault.
pub fn read_statements(alloc: Global, text: &[u8]) -> Result<Draft, TextFault>
    ensures { ReadsText (λ draft. given_of draft ≡ given_by text.now) result (first_fault text.now) }
{
    let mut draft = Draft::new(alloc);
    let mut rest = text;
    let mut number = 1;
    while !rest.is_empty() {
        let (line, after) = cut_line(rest);
        if is_large(number, text.len() - after.len(), line) {
            return Err(TextFault::At {
                line: number,
                kind: Kind::Size,
            });
        }
        match take_line(alloc, draft, number, line) {
            Ok(next) => draft = next,
            Err(fault) => return Err(fault),
        }
        rest = after;
        number += 1;
    }
    match end_fault(draft.last()) {
        Some(kind) => Err(TextFault::At { line: number, kind }),
        None => Ok(draft),
    }
}

/// The next line, with its number, which a fault tells.
fn take_line(alloc: Global, draft: Draft, number: u64, line: &[u8]) -> Result<Draft, TextFault>
    ensures { TellsAt number result (line_fault (given_of draft) line.now) (λ next. given_of next ≡ give_line (given_of draft) line.now) }
{
    match draft.take_line(alloc, line) {
        Ok(draft) => Ok(draft),
        Err(StatementFault::Fault(kind)) => Err(TextFault::At { line: number, kind }),
        Err(StatementFault::NoMemory) => Err(TextFault::NoMemory),
    }
}

/// Whether a line is too long, one too many, or ends past the most bytes.
fn is_large(number: u64, end: usize, line: &[u8]) -> bool
    ensures { result ≡ is_large number end line.now }
{
    line.len() > LINE_BYTES || number > LINES || end > TEXT_BYTES
}

/// The fault where the lines end after a statement of this kind.
fn end_fault(last: Option<Keyword>) -> Option<Kind>
    ensures { result ≡ end_fault last }
{
    match last {
        None => Some(Kind::Header),
        Some(Keyword::End) => None,
        Some(_) => Some(Kind::End),
    }
}
