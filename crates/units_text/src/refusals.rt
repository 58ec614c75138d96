//! Rules that no text spells.

use anyhow::Result;
use pc_base::{NoMemory, Sequence};
use pc_file::{File, FileFault, Rule, Value, Variable};
use pc_names::Name;
use sqlite_items::Items;
use std::alloc::Global;

/// What each of the rules is.
const RULES: [&str; 9] = [
    "the one value",
    "a value that isn't there",
    "a variable that isn't there",
    "no values",
    "a value twice",
    "one member",
    "a number above 64",
    "no rows",
    "a row that is too short",
];

/// Prints which rules make no file over one variable of one value.
pub fn tell_refusals(rt: &HostRuntime) -> Result<()> {
    for (number, what) in RULES.iter().enumerate() {
        let rule = numbered(rt.alloc(), number)?;
        println!(rt; "{what}: {}", answer(rt.alloc(), rule)?)?;
    }
    Ok(())
}

/// The rules by their numbers.
fn numbered(alloc: Global, number: usize) -> Result<Rule> {
    Ok(match number {
        0 => first(),
        1 => Rule::Is {
            variable: 0,
            value: 1,
        },
        2 => Rule::Same(0, 1),
        3 => one_of(alloc, &[])?,
        4 => one_of(alloc, &[0, 0])?,
        5 => Rule::And(one_member(alloc)?),
        6 => Rule::AtMost {
            most: 65,
            members: one_member(alloc)?,
        },
        _ => table(alloc, number == 8)?,
    })
}

fn first() -> Rule {
    Rule::Is {
        variable: 0,
        value: 0,
    }
}

fn one_of(alloc: Global, values: &[u32]) -> Result<Rule> {
    let values = Sequence::from_slice(alloc, values)?;
    Ok(Rule::OneOf {
        variable: 0,
        values,
    })
}

fn one_member(alloc: Global) -> Result<Items<Rule>> {
    let mut members = Items::new(alloc);
    members.push(first())?;
    Ok(members)
}

/// A table of the one variable with no row, or with one row that has no value.
fn table(alloc: Global, has_row: bool) -> Result<Rule> {
    let variables = Sequence::from_slice(alloc, &[0])?;
    let mut rows = Sequence::new(alloc);
    if has_row {
        rows.push(Sequence::new(alloc))?;
    }
    Ok(Rule::Table { variables, rows })
}

/// Whether a rule makes a file.
fn answer(alloc: Global, rule: Rule) -> Result<&'static str> {
    let mut values = Sequence::new(alloc);
    values.push(Value {
        name: Name::read(b"a")?,
        first: 0,
        second: 0,
    })?;
    let mut variables = Sequence::new(alloc);
    variables.push(Variable {
        name: Name::read(b"x")?,
        values,
    })?;
    let costs = Sequence::from_slice(alloc, &[Name::read(b"price")?])?;
    let mut rules = Sequence::new(alloc);
    rules.push(rule)?;
    Ok(match File::new(alloc, costs, variables, rules) {
        Ok(_) => "a file",
        Err(FileFault::Limit) => "no file",
        Err(FileFault::NoMemory) => "no memory",
    })
}
