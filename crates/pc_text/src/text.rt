//! The file that a text spells.

ghost use Rattle.std.specs.Prelude.{◌≡◌, IfOk};
ghost use Rattle.pc_file.specs.Limits.{Contents};
ghost use Rattle.pc_text.specs.FirstFault.{first_fault, given_by};
ghost use Rattle.pc_text.specs.Given.{contents_given};
ghost use Rattle.pc_text.specs.Spells.{GivesFile, Spells};
ghost use Rattle.pc_text.specs.Told.{ReadsText};

use crate::reading::read_statements;
use crate::text_fault::TextFault;
use pc_base::NoMemory;
use pc_file::File;
use std::alloc::Global;

/// The file that a product text spells, or the first fault of the text.
pub fn read_file(alloc: Global, text: &[u8]) -> Result<File, TextFault>
    ensures exact { ReadsText (λ file. file ≡ contents_given (given_by text.now)) result (first_fault text.now) }
    ensures found { IfOk result (Spells text.now) }
    ensures only { (file : Contents) → Spells text.now file → GivesFile file result }
{
    match read_statements(alloc, text) {
        Ok(draft) => match draft.into_file() {
            Ok(file) => Ok(file),
            Err(NoMemory) => Err(TextFault::NoMemory),
        },
        Err(fault) => Err(fault),
    }
}
