//! Prints what no command shows of product texts: the printed form of a file and the sizes of its rules, a listing under
//! a choice and a bound, rules that make no file, and the limits of a text as the library tells them. The stored output
//! was written by hand.
#![tactic(auto)]

mod refusals;
mod sizes;

use anyhow::Result;
use pc_base::{Text, crosses_threads};
use pc_diagram::{Bounds, Choices};
use pc_file::{
    Catalogue, File, FileFault, PlainFault, Rule, Value, Variable, plain_listing, push_listing,
    rule_line_size,
};
use pc_rules::RuleFault;
use pc_text::{Kind, TextFault, read_file, write_file};
use refusals::tell_refusals;
use sizes::tell_sizes;
use std::fs;

fn main(rt: HostRuntime) -> Result<()> {
    cross_threads();
    tell_printed(&rt, &read(&rt, "rules.product")?)?;
    tell_listing(&rt, &read(&rt, "bike.product")?)?;
    tell_refusals(&rt)?;
    tell_sizes(&rt)
}

/// All that goes from one thread to another.
fn cross_threads() {
    crosses_threads::<File>();
    crosses_threads::<Rule>();
    crosses_threads::<Variable>();
    crosses_threads::<Value>();
    crosses_threads::<Catalogue>();
    crosses_threads::<PlainFault>();
    crosses_threads::<FileFault>();
    crosses_threads::<Kind>();
    crosses_threads::<RuleFault>();
    crosses_threads::<TextFault>();
}

/// The file that the text of a stored product spells.
fn read(rt: &HostRuntime, path: &str) -> Result<File> {
    let text = fs::read_to_string(rt, path)?;
    Ok(read_file(rt.alloc(), text.as_bytes())?)
}

fn show(rt: &HostRuntime, text: &Text) -> Result<()> {
    let shown = String::from_utf8_lossy(rt.alloc(), text.as_slice())?;
    print!(rt; "{shown}")?;
    Ok(())
}

/// Prints a file in its printed form, and the bytes of the lines of its rules.
fn tell_printed(rt: &HostRuntime, file: &File) -> Result<()> {
    show(rt, &write_file(rt.alloc(), file)?)?;
    for rule in file.rules() {
        println!(rt; "{} bytes", rule_line_size(file.variables(), rule))?;
    }
    Ok(())
}

/// Prints what the plain list gives with the third variable's second value chosen, at most 660 of the first cost.
fn tell_listing(rt: &HostRuntime, file: &File) -> Result<()> {
    let choices = Choices::new(rt.alloc()).with(rt.alloc(), 2, 1)?;
    let bounds = Bounds {
        first: Some(660),
        second: None,
    };
    let listing = plain_listing(rt.alloc(), file, &choices, &bounds)?;
    let mut text = Text::new(rt.alloc());
    push_listing(&mut text, file.variables(), &listing)?;
    show(rt, &text)
}
