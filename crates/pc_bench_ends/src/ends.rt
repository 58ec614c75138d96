//! Times and memory of labels and fronts.

ghost use Rattle.pc_diagram.specs.NodePaths.{AreCostsOf, AreChoicesOf};

use crate::bare::{bare_pass, looks};
use crate::memory::memory;
use anyhow::Result;
use pc_diagram::{Choices, Costs, Diagram, Side, Steps, Weight};
use pc_labels::{heads, tails};
use pc_pareto::{FrontFault, Fronts, front_heads, front_tails};
use std::sync::ledger::Ledger;
use std::time::{Duration, Instant};

/// How often a pass is measured.
const ROUNDS: u32 = 10;

/// The times of a bare pass and of the labels from either end.
#[derive(Clone, Copy)]
struct Times {
    bare: Duration,
    from_root: Duration,
    to_end: Duration,
}

impl Times {
    /// Longer than any.
    fn most() -> Times {
        Times {
            bare: Duration::MAX,
            from_root: Duration::MAX,
            to_end: Duration::MAX,
        }
    }

    /// Of each the less.
    fn least(&self, other: &Times) -> Times {
        Times {
            bare: self.bare.min(other.bare),
            from_root: self.from_root.min(other.from_root),
            to_end: self.to_end.min(other.to_end),
        }
    }

    fn tell(&self, rt: &HostRuntime) -> Result<()> {
        let bare = self.bare.as_micros();
        let from_root = self.from_root.as_micros();
        let to_end = self.to_end.as_micros();
        println!(rt;
            "bare pass {bare} us, labels from the root {from_root} us, to the end {to_end} us"
        )?;
        Ok(())
    }
}

/// Tells the edges that each bare pass found, and the least times of a bare pass and of the labels from either end.
pub fn tell_labels<L: Ledger>(
    rt: &HostRuntime,
    diagram: &Diagram,
    choices: &Choices,
    costs: &Costs,
    steps: &mut Steps<L>,
) -> Result<()>
    requires costs { AreCostsOf diagram.now.domains costs.now }
    requires choices { AreChoicesOf diagram.now.domains choices.now }
{
    let looks = looks(rt.alloc(), diagram)?;
    let mut least = Times::most();
    for _ in 0..ROUNDS {
        let times = times_of_labels(rt, diagram, choices, costs, looks.as_slice(), steps)?;
        least = least.least(&times);
    }
    least.tell(rt)
}

/// How long each pass of a round takes.
fn times_of_labels<L: Ledger>(
    rt: &HostRuntime,
    diagram: &Diagram,
    choices: &Choices,
    costs: &Costs,
    looks: &[Weight],
    steps: &mut Steps<L>,
) -> Result<Times>
    requires costs { AreCostsOf diagram.now.domains costs.now }
    requires choices { AreChoicesOf diagram.now.domains choices.now }
{
    let start = Instant::now(rt)?;
    let found = bare_pass(diagram, looks, steps);
    let bare = start.elapsed(rt)?;
    println!(rt; "{found} edges")?;
    let from_root = time_of_labels(rt, Side::Heads, diagram, choices, costs, steps)?;
    let to_end = time_of_labels(rt, Side::Tails, diagram, choices, costs, steps)?;
    Ok(Times {
        bare,
        from_root,
        to_end,
    })
}

/// How long the labels of a side take. They are let go after that.
fn time_of_labels<L: Ledger>(
    rt: &HostRuntime,
    side: Side,
    diagram: &Diagram,
    choices: &Choices,
    costs: &Costs,
    steps: &mut Steps<L>,
) -> Result<Duration>
    requires costs { AreCostsOf diagram.now.domains costs.now }
    requires choices { AreChoicesOf diagram.now.domains choices.now }
{
    let start = Instant::now(rt)?;
    let _labels = match side {
        Side::Heads => heads(rt.alloc(), diagram, choices, costs, steps)?,
        Side::Tails => tails(rt.alloc(), diagram, choices, costs, steps)?,
    };
    Ok(start.elapsed(rt)?)
}

/// Tells the time of the fronts of either end, and their memory.
pub fn tell_fronts<L: Ledger>(
    rt: &HostRuntime,
    diagram: &Diagram,
    choices: &Choices,
    costs: &Costs,
    steps: &mut Steps<L>,
) -> Result<()>
    requires costs { AreCostsOf diagram.now.domains costs.now }
    requires choices { AreChoicesOf diagram.now.domains choices.now }
{
    tell_side(rt, Side::Heads, diagram, choices, costs, steps)?;
    tell_side(rt, Side::Tails, diagram, choices, costs, steps)
}

/// Tells the time of the fronts of a side, and their memory.
fn tell_side<L: Ledger>(
    rt: &HostRuntime,
    side: Side,
    diagram: &Diagram,
    choices: &Choices,
    costs: &Costs,
    steps: &mut Steps<L>,
) -> Result<()>
    requires costs { AreCostsOf diagram.now.domains costs.now }
    requires choices { AreChoicesOf diagram.now.domains choices.now }
{
    let before = memory(rt)?;
    let start = Instant::now(rt)?;
    let _fronts = fronts(rt, side, diagram, choices, costs, steps)?;
    let time = start.elapsed(rt)?.as_micros();
    let taken = memory(rt)?.saturating_sub(before);
    println!(rt; "fronts of the {side} {time} us, {taken} KB")?;
    Ok(())
}

/// The fronts of a side.
fn fronts<L: Ledger>(
    rt: &HostRuntime,
    side: Side,
    diagram: &Diagram,
    choices: &Choices,
    costs: &Costs,
    steps: &mut Steps<L>,
) -> Result<Fronts, FrontFault>
    requires costs { AreCostsOf diagram.now.domains costs.now }
    requires choices { AreChoicesOf diagram.now.domains choices.now }
{
    match side {
        Side::Heads => front_heads(rt.alloc(), diagram, choices, costs, steps),
        Side::Tails => front_tails(rt.alloc(), diagram, choices, costs, steps),
    }
}
