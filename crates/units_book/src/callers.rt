//! A caller's calls of a book, and the replies to them.

ghost use Rattle.pc_book.specs.Book.{history_of};
ghost use Rattle.pc_book.specs.Own.{StandsAfter};

use crate::sessions::tell_session;
use crate::stored::stored_file;
use crate::told::tell;
use anyhow::Result;
use pc_book::{Book, Own};
use pc_build::compile;

/// A caller enters, makes its calls and leaves, whatever becomes of them.
pub fn tell_caller(rt: &HostRuntime, book: &mut Book) -> Result<()> {
    let mut own = book.enter()?;
    let told = tell_calls(rt, book, &mut own);
    let reply = book.leave(own);
    told?;
    tell(rt, "leave", &reply)
}

/// Nothing is published at first; then a version, with a session that is asked, and closed.
fn tell_calls(rt: &HostRuntime, book: &mut Book, own: &mut Own) -> Result<()>
    requires stands { StandsAfter (history_of book.old) own.old }
    ensures stands { StandsAfter (history_of book.new) own.new }
{
    open(rt, book, own)?;
    publish(rt, book, own, 0, "bike.product")?;
    open(rt, book, own)?;
    tell_session(rt, book, own)?;
    book.settle(own)?;
    versions(rt, book, own)?;
    reclaim(rt, book, own)?;
    prepare(rt, book, own)?;
    close(rt, book, own)
}

pub fn open(rt: &HostRuntime, book: &mut Book, own: &mut Own) -> Result<()>
    requires stands { StandsAfter (history_of book.old) own.old }
    ensures stands { StandsAfter (history_of book.new) own.new }
{
    let reply = book.open_session(own)?;
    tell(rt, "open", &reply)
}

pub fn publish(
    rt: &HostRuntime,
    book: &mut Book,
    own: &mut Own,
    base: u64,
    path: &str,
) -> Result<()>
    requires stands { StandsAfter (history_of book.old) own.old }
    ensures stands { StandsAfter (history_of book.new) own.new }
{
    let file = stored_file(rt, path)?;
    let built = compile(rt.alloc(), file.share()?);
    let reply = book.publish(own, base, file, built)?;
    tell(rt, "publish", &reply)
}

pub fn versions(rt: &HostRuntime, book: &mut Book, own: &mut Own) -> Result<()>
    requires stands { StandsAfter (history_of book.old) own.old }
    ensures stands { StandsAfter (history_of book.new) own.new }
{
    let reply = book.versions(own)?;
    tell(rt, "versions", &reply)
}

pub fn reclaim(rt: &HostRuntime, book: &mut Book, own: &mut Own) -> Result<()>
    requires stands { StandsAfter (history_of book.old) own.old }
    ensures stands { StandsAfter (history_of book.new) own.new }
{
    let reply = book.reclaim(own, 1)?;
    tell(rt, "reclaim", &reply)
}

/// What the session gives that moves to its own version, and to that version under another number.
fn prepare(rt: &HostRuntime, book: &Book, own: &Own) -> Result<()> {
    let Some(target) = book.target(1)? else {
        println!(rt; "version 1 isn't live")?;
        return Ok(());
    };
    let same = own.prepare(1, 1, &target, false)?;
    let other = own.prepare(1, 2, &target, false)?;
    println!(rt;
        "prepare: the same version {}, another {}",
        same.is_some(),
        other.is_some()
    )?;
    Ok(())
}

fn close(rt: &HostRuntime, book: &mut Book, own: &mut Own) -> Result<()>
    requires stands { StandsAfter (history_of book.old) own.old }
    ensures stands { StandsAfter (history_of book.new) own.new }
{
    let reply = book.close(own, 1)?;
    tell(rt, "close", &reply)
}
