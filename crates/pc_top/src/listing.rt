//! The listing of a version.

ghost use Rattle.std.specs.Prelude.{◌≡◌, ◌<◌, [], ◌++◌, IfOk, OnOk};
ghost use Rattle.pc_diagram.specs.Bounds.{no_bounds};
ghost use Rattle.pc_diagram.specs.Listing.{listing};
ghost use Rattle.pc_diagram.specs.NodePaths.{AreCostsOf};
ghost use Rattle.pc_diagram.specs.Paths.{words};
ghost use Rattle.pc_file.specs.Costs.{file_listing};
ghost use Rattle.pc_file.specs.ListingText.{listing_text};

use pc_base::{NoMemory, Text};
use pc_build::Version;
use pc_diagram::{Bounds, Choices, Costs, Diagram, Listing, Steps};
use pc_domains::Board;
use pc_file::push_listing;
use std::alloc::Global;
use std::marker::Brand;
use std::sync::ledger::{Blank, Ledger};

/// Puts the listing of a version's file, without choices and bounds, at the end of a text.
pub fn push_open_listing(alloc: Global, text: &mut Text, version: &Version) -> Result<(), NoMemory>
    ensures { OnOk result (text.new ≡ text.old ++ listing_text version.now.file.variables (file_listing version.now.file [] no_bounds)) }
{
    let variables = version.file.file().variables();
    let listing = open_listing::<Brand>(alloc, &version.diagram, &version.costs, Blank::new(1))?;
    push_listing(text, variables, &listing)
}

/// The listing over the words of a diagram without choices and bounds.
fn open_listing<L: Ledger>(
    alloc: Global,
    diagram: &Diagram,
    costs: &Costs,
    blank: Blank,
) -> Result<Listing, NoMemory>
    requires name { blank.name ≡ L.name }
    requires parts { blank.parts ≡ L.parts }
    requires some { 0 < blank.parts }
    requires costs { AreCostsOf diagram.now.domains costs.now }
    ensures { IfOk result (λ rows. rows ≡ listing costs.now (words diagram.now) [] no_bounds) }
{
    let mut steps = Steps::<L>::new(blank);
    let (choices, bounds) = (Choices::new(alloc), Bounds::none());
    match Board::new(alloc, diagram, costs, &choices, &bounds, &mut steps) {
        Ok(board) => board.listing(alloc, diagram, costs, &mut steps),
        // (without bounds no limit of fronts stands, and some word of a diagram fits: only want of memory is left)
        Err(_) => Err(NoMemory),
    }
}
