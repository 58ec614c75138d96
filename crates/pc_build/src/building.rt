//! The diagram of a file's products.

ghost use Rattle.std.specs.Prelude.{◌≡◌, IfOk, IfErr};
ghost use Rattle.pc_diagram.specs.Diagram.{IsCanonical};
ghost use Rattle.pc_diagram.specs.Paths.{words};
ghost use Rattle.pc_file.specs.Full.{full_domains, full};
ghost use Rattle.pc_build.specs.Building.{IsSmall, IsBuildFault};

use crate::extract::diagram_of;
use crate::fault::BuildFault;
use crate::products::set_of_products;
use pc_diagram::Diagram;
use pc_file::File;
use std::alloc::Global;

/// The canonical diagram of a file's products, or why there is none.
pub(crate) fn diagram_of_products(alloc: Global, file: &File) -> Result<Diagram, BuildFault>
    ensures domains { IfOk result (λ diagram. diagram.domains ≡ full_domains file.now) }
    ensures words { IfOk result (λ diagram. words diagram ≡ full file.now) }
    ensures canonical { IfOk result (λ diagram. IsCanonical diagram) }
    ensures small { IfOk result (λ _. IsSmall file.now) }
    ensures fault { IfErr result (IsBuildFault file.now) }
{
    let made = set_of_products(alloc, file)?;
    match diagram_of(&made.store, made.set) {
        Ok(diagram) => Ok(diagram),
        Err(_) => Err(BuildFault::NoMemory),
    }
}
