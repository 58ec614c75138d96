//! Runs the program on the cases of the files `*.cases` of the folder that it is started in, over ends in memory, and
//! tells for each file how many agree. A case that doesn't agree is told with what was wanted and what came.
#![tactic(auto)]

mod case;
mod line;
mod reader;
mod running;

use anyhow::{Context, Result};
use case::Case;
use reader::read_cases;
use running::{Ran, run_case};
use std::fs;

fn main(rt: HostRuntime) -> Result<()> {
    let names = case_files(&rt)?;
    for name in names.iter() {
        let name = name.as_str();
        let text = fs::read(&rt, name)?;
        let cases = read_cases(rt.alloc(), text.as_slice()).context(format_args!("{name}"))?;
        let agreeing = run_all(&rt, cases.as_slice())?;
        println!(rt; "{name}: {agreeing} of {} agree", cases.len())?;
    }
    Ok(())
}

/// The names of the files of cases, in order.
fn case_files(rt: &HostRuntime) -> Result<Vec<String>> {
    let mut names = Vec::new(rt.alloc());
    for entry in fs::read_dir(rt, ".")? {
        let entry = entry?;
        let name = entry.file_name();
        if name.ends_with(".cases") {
            names.push(String::from_str(rt.alloc(), name)?)?;
        }
    }
    names.sort()?;
    Ok(names)
}

/// Runs each case, tells of each that doesn't agree, and gives the number of those that do.
fn run_all(rt: &HostRuntime, cases: &[Case]) -> Result<usize> {
    let mut agreeing = 0usize;
    for case in cases {
        let ran = run_case(rt.alloc(), case)?;
        if ran.agrees_with(case) {
            agreeing = agreeing.saturating_add(1);
        } else {
            tell(rt, case, &ran)?;
        }
    }
    Ok(agreeing)
}

/// Tells what was wanted of a case and what came.
fn tell(rt: &HostRuntime, case: &Case, ran: &Ran) -> Result<()> {
    println!(rt;
        "--- {}: status {}, wanted {}",
        lossy(rt, case.name.as_slice())?,
        ran.status,
        case.status
    )?;
    println!(rt; "wanted:\n{}", lossy(rt, case.output.as_slice())?)?;
    println!(rt; "got:\n{}", lossy(rt, ran.written.as_slice())?)?;
    Ok(())
}

/// The text of some bytes.
fn lossy(rt: &HostRuntime, bytes: &[u8]) -> Result<String> {
    Ok(String::from_utf8_lossy(rt.alloc(), bytes)?)
}
