//! The calls of an open session, which wait for the journal.

ghost use Rattle.pc_book.specs.Book.{history_of};
ghost use Rattle.pc_book.specs.Own.{StandsAfter};

use crate::told::tell;
use anyhow::Result;
use pc_book::{Book, Own};
use pc_names::Name;

/// The session 1 is asked for a light, and bound to three days, and both are taken back.
pub fn tell_session(rt: &HostRuntime, book: &Book, own: &mut Own) -> Result<()>
    requires stands { StandsAfter (history_of book.now) own.old }
    ensures stands { StandsAfter (history_of book.now) own.new }
{
    choose(rt, book, own)?;
    bound(rt, book, own)?;
    unbound(rt, book, own)?;
    retract(rt, book, own)?;
    show(rt, book, own)
}

pub fn choose(rt: &HostRuntime, _book: &Book, own: &mut Own) -> Result<()>
    requires stands { StandsAfter (history_of _book.now) own.old }
    ensures stands { StandsAfter (history_of _book.now) own.new }
{
    let reply = own.choose(1, Name::read(b"light")?, Name::read(b"led")?)?;
    tell(rt, "choose", &reply)
}

fn bound(rt: &HostRuntime, _book: &Book, own: &mut Own) -> Result<()>
    requires stands { StandsAfter (history_of _book.now) own.old }
    ensures stands { StandsAfter (history_of _book.now) own.new }
{
    let reply = own.bound(1, Name::read(b"days")?, 3)?;
    tell(rt, "bound", &reply)
}

fn unbound(rt: &HostRuntime, _book: &Book, own: &mut Own) -> Result<()>
    requires stands { StandsAfter (history_of _book.now) own.old }
    ensures stands { StandsAfter (history_of _book.now) own.new }
{
    let reply = own.unbound(1, Name::read(b"days")?)?;
    tell(rt, "unbound", &reply)
}

fn retract(rt: &HostRuntime, _book: &Book, own: &mut Own) -> Result<()>
    requires stands { StandsAfter (history_of _book.now) own.old }
    ensures stands { StandsAfter (history_of _book.now) own.new }
{
    let reply = own.retract(1, Name::read(b"light")?)?;
    tell(rt, "retract", &reply)
}

fn show(rt: &HostRuntime, _book: &Book, own: &mut Own) -> Result<()>
    requires stands { StandsAfter (history_of _book.now) own.old }
    ensures stands { StandsAfter (history_of _book.now) own.new }
{
    let reply = own.show(1)?;
    tell(rt, "show", &reply)
}
