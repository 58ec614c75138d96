//! What a text gives.

ghost use Rattle.std.specs.Prelude.{◌≡◌, IfOk};
ghost use Rattle.pc_conn.specs.BodyText.{body_of};

use crate::body::Body;
use pc_base::NoMemory;
use pc_file::SharedFile;
use pc_text::{TextFault, read_file};
use std::alloc::Global;

/// The file that a text spells, or its first fault.
#[tactic(auto, unfolding(crate::specs::BodyText::body_of))]
pub fn body_of(alloc: Global, text: &[u8]) -> Result<Body, NoMemory>
    ensures exact { IfOk result (λ body. body ≡ body_of text.now) }
{
    match read_file(alloc, text) {
        Ok(file) => Ok(Body::File(SharedFile::new(alloc, file)?)),
        Err(TextFault::At { line, kind }) => Ok(Body::Fault { line, kind }),
        Err(TextFault::NoMemory) => Err(NoMemory),
    }
}
