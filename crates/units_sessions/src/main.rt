//! Shows sessions: what the calls of a visit are answered, and that what a session lists over its diagram is what the plain
//! list of the products gives, for small products with rules of each form, with each bound and choice. Its stored output was
//! written by hand, but for how many answers are compared, which another program counted from the products.
#![tactic(auto)]

ghost use Rattle.std.specs.Prelude.{◌≡◌, ◌<◌};

mod beside;
mod opened;
mod products;
mod text;
mod visits;
mod walks;

use anyhow::Result;
use pc_diagram::Steps;
use products::tell_products;
use std::marker::Brand;
use std::sync::ledger::{Blank, Ledger};
use visits::{Told, tell_visits};

fn main(rt: HostRuntime) -> Result<()> {
    tell_all::<Brand>(&rt, Blank::new(1))
}

/// Tells visits of the bike, of a product with costs of both signs and of one with too many pairs of costs, and small products
/// beside their plain lists. Of the 20 variables without rules in `loose.product` two have to be chosen for the pairs of costs
/// to be few enough, where the second cost has a bound.
fn tell_all<L: Ledger>(rt: &HostRuntime, blank: Blank) -> Result<()>
    requires name { blank.name ≡ L.name }
    requires parts { blank.parts ≡ L.parts }
    requires some { 0 < blank.parts }
{
    let mut steps = Steps::<L>::new(blank);
    tell_visits(rt, "bike.product", "bike.visits", Told::Listing, &mut steps)?;
    tell_visits(
        rt,
        "offer.product",
        "offer.visits",
        Told::Listing,
        &mut steps,
    )?;
    tell_visits(
        rt,
        "loose.product",
        "loose.visits",
        Told::Outcome,
        &mut steps,
    )?;
    tell_products(rt, &mut steps)
}
