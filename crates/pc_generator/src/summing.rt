//! The summary of what the generator is answered.

ghost use Rattle.std.specs.Prelude.{◌≡◌, Ok, IfOk};
ghost use Rattle.pc_diagram.specs.Diagram.{IsCanonical};
ghost use Rattle.pc_book.specs.Sharing.{IsBuilt};
ghost use Rattle.pc_generator.specs.Summary.{IsSummary};

use crate::asking::ask;
use crate::file::generated_file;
use crate::lines::{push_diagram_lines, push_session_lines};
use crate::size::Size;
use pc_base::{NoMemory, Text};
use pc_book::Book;
use pc_build::{Version, compile};
use pc_file::SharedFile;
use std::alloc::Global;

/// A caller of a new book publishes the file of so many variables and asks three sessions: the lines that tell of the
/// diagram and of what was answered.
///
/// # Errors
///
/// Want of memory.
pub fn summary(alloc: Global, size: Size) -> Result<Text, NoMemory>
    ensures { IfOk result (IsSummary size) }
{
    let file = SharedFile::new(alloc, generated_file(alloc, size)?)?;
    let version = version_of(alloc, file.share()?)?;
    let mut text = Text::new(alloc);
    push_diagram_lines(&mut text, size, &version.diagram)?;
    let mut book = Book::new(alloc);
    let answers = ask(&mut book, size, file, version);
    book.finish();
    push_session_lines(&mut text, size, &answers?)?;
    Ok(text)
}

/// The version that the compiler makes of the file.
fn version_of(alloc: Global, file: SharedFile) -> Result<Version, NoMemory>
    ensures built { IfOk result (λ version. IsBuilt file (Ok version)) }
    ensures canonical { IfOk result (λ version. IsCanonical version.diagram) }
{
    match compile(alloc, file) {
        Ok(version) => Ok(version),
        // (no set of such a file is too large, and it has a product: only want of memory is left)
        Err(_) => Err(NoMemory),
    }
}
