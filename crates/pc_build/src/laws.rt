//! Laws of the definitions and types. Each function's contract is a law; nothing calls them.

ghost use Rattle.std.specs.Prelude.{◌≢◌, []};
ghost use Rattle.pc_file.specs.Bike.{bike};
ghost use Rattle.pc_file.specs.Full.{full_domains, full};
ghost use Rattle.pc_file.specs.Parts.{compile_list, IsNodeLimit, HasNoNodeLimit};

use crate::shared_version::SharedVersion;
use crate::version::Version;
use pc_base::crosses_threads;

/// The worked example, by evaluation, for limits of a few nodes. The sets of the first rule have 4, 4, 5 and 5 nodes: its
/// two subrules, the rule itself, and all rules so far; those of the second 4, 4, 4, 6 and 7.
pub fn limits_of_the_bike()
    ensures three { IsNodeLimit 3 (full_domains bike) (compile_list bike) 1 1 }
    ensures four { IsNodeLimit 4 (full_domains bike) (compile_list bike) 1 3 }
    ensures five { IsNodeLimit 5 (full_domains bike) (compile_list bike) 2 4 }
    ensures six { IsNodeLimit 6 (full_domains bike) (compile_list bike) 2 5 }
    ensures seven { HasNoNodeLimit 7 (full_domains bike) (compile_list bike) }
{}

/// The file of a version has a product, since each canonical diagram has a word.
pub fn versions_have_products(version: &Version)
    ensures { full version.now.file ≢ [] }
{
    // The proof reads here that the diagram is canonical.
    let _domains = version.diagram.domains();
}

/// Versions may be sent to other threads and shared with them.
pub fn versions_cross_threads() {
    crosses_threads::<Version>();
    crosses_threads::<SharedVersion>();
}
