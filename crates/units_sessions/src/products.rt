//! Small products, one after the other in one stored file.

use crate::beside::Beside;
use crate::opened::opened;
use crate::walks::walk_bounds;
use anyhow::Result;
use pc_base::Text;
use pc_diagram::Steps;
use pc_file::SharedFile;
use pc_text::read_file;
use std::fs;
use std::sync::ledger::Ledger;

/// A line for each product: how many answers were compared with the plain list, and whether all are the same, else what was
/// asked at the first that isn't; or why there is no session. A product's text goes to its line `end`.
pub fn tell_products<L: Ledger>(rt: &HostRuntime, steps: &mut Steps<L>) -> Result<()> {
    let products = fs::read_to_string(rt, "small.products")?;
    let mut text = Text::new(rt.alloc());
    let mut number = 0u64;
    for line in products.as_str().lines() {
        text.extend_from_slice(line.as_bytes())?;
        text.push(b'\n')?;
        if line == "end" {
            number = number.saturating_add(1);
            print!(rt; "{number}: ")?;
            tell_product(rt, text.as_slice(), steps)?;
            text = Text::new(rt.alloc());
        }
    }
    Ok(())
}

/// The rest of the line of one product.
fn tell_product<L: Ledger>(rt: &HostRuntime, text: &[u8], steps: &mut Steps<L>) -> Result<()> {
    let alloc = rt.alloc();
    let file = match read_file(alloc, text) {
        Ok(file) => SharedFile::new(alloc, file)?,
        Err(fault) => {
            println!(rt; "{fault}")?;
            return Ok(());
        }
    };
    match opened(alloc, file.share()?) {
        Ok((session, listing)) => {
            let mut beside = Beside::new(alloc, file.file(), session);
            beside.compare(&listing)?;
            walk_bounds(&mut beside, steps)?;
            tell_beside(rt, &beside)
        }
        Err(fault) => {
            println!(rt; "{fault}")?;
            Ok(())
        }
    }
}

fn tell_beside(rt: &HostRuntime, beside: &Beside<'_>) -> Result<()> {
    let compared = beside.compared;
    match &beside.first_other {
        None => println!(rt; "{compared} answers, same")?,
        Some(asked) => println!(rt; "{compared} answers, another one where {asked:?}")?,
    }
    Ok(())
}
