//! A version of a product: a file with its diagram and its costs.

ghost use Rattle.std.specs.Prelude.{◌≡◌};
ghost use Rattle.pc_diagram.specs.NodePaths.{AreCostsOf};
ghost use Rattle.pc_diagram.specs.Paths.{words};
ghost use Rattle.pc_file.specs.Costs.{costs_of};
ghost use Rattle.pc_file.specs.Full.{full_domains, full};

use pc_diagram::{Costs, Diagram};
use pc_file::SharedFile;

/// A file that was compiled: its diagram is the canonical one whose words are the file's, and the costs are those of its
/// values, which are the diagram's.
#[derive(Debug, Drop)]
pub struct Version {
    pub file: SharedFile,
    pub diagram: Diagram,
    pub costs: Costs,
    ghost domains: { diagram.domains ≡ full_domains file },
    ghost words: { words diagram ≡ full file },
    ghost priced: { costs ≡ costs_of file.variables },
    ghost valued: { AreCostsOf diagram.domains costs },
}
