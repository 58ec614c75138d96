//! What the plain program lists of a few words.

use anyhow::{Result, bail};
use pc_base::{NoMemory, Sequence};
use pc_diagram::{Bounds, Choices, CostPair, Costs, Word, is_priced, listing};
use std::alloc::Global;

/// Tells what is listed of the eight bikes: of all, of at most two days, of the third frame, and of both, which is nothing.
pub fn tell_bikes(rt: &HostRuntime) -> Result<()> {
    let alloc = rt.alloc();
    let costs = costs_of(
        alloc,
        &[
            &[(300, 2), (500, 1), (900, 5)],
            &[(80, 1), (120, 1)],
            &[(0, 0), (40, 1)],
        ],
    )?;
    let words = words_of(
        alloc,
        &[
            &[0, 0, 0],
            &[0, 1, 0],
            &[1, 0, 0],
            &[1, 0, 1],
            &[1, 1, 0],
            &[1, 1, 1],
            &[2, 1, 0],
            &[2, 1, 1],
        ],
    )?;
    let open = Choices::new(alloc);
    let quick = Bounds {
        first: None,
        second: Some(2),
    };
    tell(rt, &costs, &words, &open, &Bounds::none())?;
    tell(rt, &costs, &words, &open, &quick)?;
    if open.is_chosen(0) {
        bail!("nothing is chosen");
    }
    let carbon = open.with(alloc, 0, 2)?;
    tell(rt, &costs, &words, &carbon, &Bounds::none())?;
    tell(rt, &costs, &words, &carbon, &quick)?;
    tell(rt, &costs, &words, &carbon.without(alloc, 0)?, &quick)
}

/// Tells what is listed of four words that cost the same: each value with the first word that takes it.
pub fn tell_ties(rt: &HostRuntime) -> Result<()> {
    let alloc = rt.alloc();
    let costs = costs_of(alloc, &[&[(1, 0), (1, 0)], &[(0, 0), (0, 0)]])?;
    let words = words_of(alloc, &[&[0, 0], &[0, 1], &[1, 0], &[1, 1]])?;
    tell(rt, &costs, &words, &Choices::new(alloc), &Bounds::none())
}

/// A line for each listed value: its variable, the value, the two costs and the word; and a line `.`.
fn tell(
    rt: &HostRuntime,
    costs: &Costs,
    words: &Sequence<Word>,
    choices: &Choices,
    bounds: &Bounds,
) -> Result<()> {
    if !is_priced(costs) {
        bail!("a cost is out of range");
    }
    let listed = listing(rt.alloc(), costs, words.as_slice(), choices, bounds)?;
    for (variable, row) in listed.as_slice().iter().enumerate() {
        for item in row.as_slice() {
            print!(rt; "{variable}: {} {} {}", item.value, item.first, item.second)?;
            println!(rt; " {:?}", item.word.as_slice())?;
        }
    }
    println!(rt; ".")?;
    Ok(())
}

/// Costs of so many variables, from rows of pairs.
fn costs_of(alloc: Global, rows: &[&[(i64, i64)]]) -> Result<Costs, NoMemory> {
    let mut costs = Sequence::new(alloc);
    for row in rows {
        let mut pairs = Sequence::new(alloc);
        for (first, second) in *row {
            pairs.push(CostPair {
                first: *first,
                second: *second,
            })?;
        }
        costs.push(pairs)?;
    }
    Ok(costs)
}

fn words_of(alloc: Global, words: &[&[u32]]) -> Result<Sequence<Word>, NoMemory> {
    let mut list = Sequence::new(alloc);
    for word in words {
        list.push(Word::from_slice(alloc, word)?)?;
    }
    Ok(list)
}
