//! The words of a line.

ghost use Rattle.std.specs.Prelude.{◌≡◌, map, IfOk};
ghost use Rattle.std.specs.List.{slice_split};
ghost use Rattle.pc_names.specs.Spaces.{is_space};

use std::alloc::{AllocError, Global};

/// A line cut at every space.
pub(crate) fn line_words(alloc: Global, line: &[u8]) -> Result<Vec<&[u8]>, AllocError>
    ensures { IfOk result (λ words. map (λ word. word.now) words.items ≡ slice_split is_space line.now) }
{
    line.split(|byte| *byte == b' ').collect(alloc)
}
