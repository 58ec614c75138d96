//! Shows the book of all callers: a caller publishes, opens a session, asks it, closes it and leaves, and is told its replies;
//! then another publishes the next version, and moves its session there. Its stored output was written by hand.
#![tactic(auto)]

mod callers;
mod moves;
mod sessions;
mod stored;
mod told;

use anyhow::Result;
use callers::tell_caller;
use moves::tell_mover;
use pc_book::Book;

fn main(rt: HostRuntime) -> Result<()> {
    let mut book = Book::new(rt.alloc());
    let told = tell_callers(&rt, &mut book);
    let entered = book.entered();
    let journal = book.finish();
    told?;
    println!(rt; "{entered} callers, {} blocks", journal.len())?;
    Ok(())
}

fn tell_callers(rt: &HostRuntime, book: &mut Book) -> Result<()> {
    tell_caller(rt, book)?;
    tell_mover(rt, book)
}
