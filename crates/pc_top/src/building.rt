//! From a product text to the version of the file that it spells.

ghost use Rattle.std.specs.Prelude.{IfOk};
ghost use Rattle.pc_top.specs.Built.{IsBuilt};
ghost use Rattle.pc_top.specs.Refusals.{file_given, file_refusal, text_refusal};

use crate::refusals::{refused_no_product, refused_node_limit, refused_text};
use crate::response::Response;
use pc_base::NoMemory;
use pc_build::{BuildFault, Version, compile};
use pc_file::SharedFile;
use pc_text::{TextFault, read_file};
use std::alloc::Global;

/// A version, or the answer that refuses its text.
#[derive(Debug, Drop)]
pub enum Built {
    Version(Version),
    Refused(Response),
}

/// The version of the file that a text spells, or why there is none.
pub fn build(alloc: Global, text: &[u8]) -> Result<Built, NoMemory>
    ensures { IfOk result (IsBuilt (file_given text.now) (text_refusal text.now)) }
{
    match read_file(alloc, text) {
        Ok(file) => build_file(alloc, SharedFile::new(alloc, file)?),
        Err(TextFault::At { line, kind }) => Ok(Built::Refused(refused_text(alloc, line, kind)?)),
        Err(TextFault::NoMemory) => Err(NoMemory),
    }
}

/// The version of a file, or why there is none.
fn build_file(alloc: Global, file: SharedFile) -> Result<Built, NoMemory>
    ensures { IfOk result (IsBuilt file (file_refusal file)) }
{
    match compile(alloc, file) {
        Ok(version) => Ok(Built::Version(version)),
        Err(BuildFault::NodeLimit { rule, part }) => {
            Ok(Built::Refused(refused_node_limit(alloc, rule, part)?))
        }
        Err(BuildFault::NoProduct) => Ok(Built::Refused(refused_no_product(alloc)?)),
        Err(BuildFault::NoMemory) => Err(NoMemory),
    }
}
