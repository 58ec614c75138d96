//! Diagrams of files.

use anyhow::Result;
use pc_build::{BuildFault, Version, compile};
use pc_file::SharedFile;
use pc_text::read_file;
use std::fs;

/// The stored products: one without rules, one for each form of rule, and two with several rules.
const PRODUCTS: &[&str] = &[
    "free", "is", "is_not", "one_of", "not", "and", "or", "implies", "same", "at_most", "table",
    "bike", "nothing",
];

/// Prints of each stored product how many nodes the layers of its diagram have, or why it has none.
pub fn tell_forms(rt: &HostRuntime) -> Result<()> {
    for name in PRODUCTS {
        tell_form(rt, name)?;
    }
    Ok(())
}

fn tell_form(rt: &HostRuntime, name: &str) -> Result<()> {
    let file = stored_file(rt, name)?;
    print!(rt; "{name}:")?;
    match compile(rt.alloc(), file) {
        Ok(version) => tell_nodes(rt, &version),
        Err(fault) => tell_fault(rt, fault),
    }
}

/// The file of this name.
fn stored_file(rt: &HostRuntime, name: &str) -> Result<SharedFile> {
    let path = format!(in rt.alloc(); "{name}.product")?;
    let text = fs::read_to_string(rt, path.as_str())?;
    let file = read_file(rt.alloc(), text.as_bytes())?;
    Ok(SharedFile::new(rt.alloc(), file)?)
}

fn tell_fault(rt: &HostRuntime, fault: BuildFault) -> Result<()> {
    println!(rt; " {fault}")?;
    Ok(())
}

/// Prints how many nodes each layer has.
fn tell_nodes(rt: &HostRuntime, version: &Version) -> Result<()> {
    for layer in 0..=version.diagram.domains().len() {
        print!(rt; " {}", version.diagram.nodes(layer as u32))?;
    }
    println!(rt; "")?;
    Ok(())
}
