//! The compiler.

ghost use Rattle.std.specs.Prelude.{◌≡◌, ◌≢◌, [], IfOk, IfErr};
ghost use Rattle.pc_diagram.specs.Diagram.{IsCanonical};
ghost use Rattle.pc_file.specs.Full.{full};
ghost use Rattle.pc_build.specs.Building.{IsSmall, IsBuildFault, HasNodeForEachRest};

use crate::building::diagram_of_products;
use crate::fault::BuildFault;
use crate::version::Version;
use pc_file::{SharedFile, costs_of};
use std::alloc::Global;

/// The version of a file: its canonical diagram, which has a node for each way in which the products go on, and its
/// costs. It takes no copy of the file.
///
/// # Errors
///
/// The first set on the way that is too large, by its rule and its part; else that there is no product; or want of
/// memory, which may come in any case.
pub fn compile(alloc: Global, file: SharedFile) -> Result<Version, BuildFault>
    ensures file { IfOk result (λ version. version.file ≡ file) }
    ensures canonical { IfOk result (λ version. IsCanonical version.diagram) }
    ensures nodes { IfOk result (λ version. HasNodeForEachRest file version.diagram) }
    ensures small { IfOk result (λ _. IsSmall file) }
    ensures some { IfOk result (λ _. full file ≢ []) }
    ensures fault { IfErr result (IsBuildFault file) }
{
    let diagram = diagram_of_products(alloc, file.file())?;
    let costs = costs_of(alloc, file.file().variables())?;
    Ok(Version {
        file,
        diagram,
        costs,
    })
}
