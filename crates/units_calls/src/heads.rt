//! Heads of answers, and their lines.

use anyhow::Result;
use pc_base::NoMemory;
use pc_calls::{DropList, Dropped, Head, Live, LiveList, Outcome, Reply, write_head, write_reply};
use pc_diagram::Side;
use pc_names::Name;
use std::alloc::Global;

/// Tells the first line of each outcome, and a head that lists versions and what was dropped.
pub fn tell(rt: &HostRuntime) -> Result<()> {
    let alloc = rt.alloc();
    let frame = Name::read(b"frame")?;
    for outcome in outcomes(frame) {
        let text = write_head(alloc, &head(alloc, outcome))?;
        print!(rt; "{}", str::from_utf8(text.as_slice())?)?;
    }
    let text = write_reply(alloc, &full_reply(alloc, frame, Name::read(b"days")?)?)?;
    print!(rt; "{}", str::from_utf8(text.as_slice())?)?;
    Ok(())
}

/// Each outcome once, in the order of the codes.
fn outcomes(name: Name) -> [Outcome; 22] {
    [
        Outcome::Done,
        Outcome::NoSession,
        Outcome::NoVariable,
        Outcome::NoValue,
        Outcome::NotListed,
        Outcome::NotChosen,
        Outcome::NoCost,
        Outcome::NotBounded,
        Outcome::TooTight { least: -7 },
        Outcome::LabelLimit {
            side: Side::Tails,
            layer: 12,
        },
        Outcome::NotLive { version: 9 },
        Outcome::SameVersion,
        Outcome::Lost { name },
        Outcome::Conflict,
        Outcome::Stale { current: 0 },
        Outcome::ShelvesFull,
        Outcome::NodeLimit { rule: 4, part: 1 },
        Outcome::NoProduct,
        Outcome::IsCurrent,
        Outcome::Pinned { pins: 64 },
        Outcome::SessionsFull,
        Outcome::NoVersion,
    ]
}

fn head(alloc: Global, outcome: Outcome) -> Head {
    Head {
        session: 3,
        version: 2,
        outcome,
        live: LiveList::new(alloc),
        dropped: DropList::new(alloc),
    }
}

/// A reply that lists two versions, a bound that was dropped and a choice.
fn full_reply(alloc: Global, variable: Name, cost: Name) -> Result<Reply, NoMemory> {
    let mut head = head(alloc, Outcome::Done);
    head.live.push(Live {
        version: 1,
        pins: 0,
    })?;
    head.live.push(Live {
        version: 12,
        pins: 64,
    })?;
    head.dropped.push(Dropped::Bound(cost))?;
    head.dropped.push(Dropped::Choice(variable))?;
    Ok(Reply { head, shown: None })
}
