//! The calls of a caller whose session moves to another version, and the replies to them.

ghost use Rattle.pc_book.specs.Book.{history_of};
ghost use Rattle.pc_book.specs.Own.{StandsAfter};

use crate::callers::{open, publish, reclaim, versions};
use crate::sessions::choose;
use crate::told::tell;
use anyhow::Result;
use pc_book::{Book, Own};

/// A caller enters, makes its calls and leaves, whatever becomes of them.
pub fn tell_mover(rt: &HostRuntime, book: &mut Book) -> Result<()> {
    let mut own = book.enter()?;
    let told = tell_moves(rt, book, &mut own);
    let reply = book.leave(own);
    told?;
    tell(rt, "leave", &reply)
}

/// A session with a light moves to the next version, which knows no light: not while it keeps what it asks, but where it may
/// drop it. Then nothing is at the version that it left.
fn tell_moves(rt: &HostRuntime, book: &mut Book, own: &mut Own) -> Result<()>
    requires stands { StandsAfter (history_of book.old) own.old }
    ensures stands { StandsAfter (history_of book.new) own.new }
{
    open(rt, book, own)?;
    choose(rt, book, own)?;
    publish(rt, book, own, 1, "plain.product")?;
    rebase(rt, book, own, false)?;
    rebase(rt, book, own, true)?;
    versions(rt, book, own)?;
    reclaim(rt, book, own)
}

fn rebase(rt: &HostRuntime, book: &mut Book, own: &mut Own, dropping: bool) -> Result<()>
    requires stands { StandsAfter (history_of book.old) own.old }
    ensures stands { StandsAfter (history_of book.new) own.new }
{
    let made = book.prepared(own, 1, 2, dropping)?;
    let reply = book.rebase(own, 1, 2, dropping, made)?;
    tell(rt, "rebase", &reply)
}
