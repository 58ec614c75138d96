//! A caller's call of the book, by which it stays. What it calls of a session goes into the journal at once, so that the
//! journal has the calls in the order of the lines.

ghost use Rattle.std.specs.Prelude.{◌≡◌, ◌<◌, OnErr, IfOk};
ghost use Rattle.pc_book.specs.Book.{history_of};
ghost use Rattle.pc_book.specs.Own.{StandsAfter};
ghost use Rattle.pc_calls.specs.declared.call.Call.TheVariants.{Show, Rebase, Publish};
ghost use Rattle.pc_book.specs.Change.{change_call};
ghost use Rattle.pc_script.specs.Present.{IsSettled, Makes, StaysWith};
ghost use Rattle.pc_script.specs.Spoken.{IsStaying};

use pc_base::NoMemory;
use pc_book::{Book, Change, Own};
use pc_build::compile;
use pc_calls::{Call, Reply};
use pc_file::SharedFile;
use std::alloc::Global;

/// Makes a call that is no enter and no leave.
pub fn make_call(
    alloc: Global,
    book: &mut Book,
    own: &mut Own,
    call: Call,
) -> Result<Reply, NoMemory>
    requires stands { StandsAfter (history_of book.old) own.old }
    requires settled { IsSettled own.old }
    requires staying { IsStaying call }
    ensures makes { IfOk result (Makes call book.old book.new own.old own.new) }
    ensures stays { OnErr result (StaysWith book.old book.new own.old own.new) }
{
    match call {
        Call::Open => book.open_session(own),
        Call::Show { session } => show(book, own, session),
        Call::Choose {
            session,
            variable,
            value,
        } => change(book, own, session, Change::Choose { variable, value }),
        Call::Retract { session, variable } => change(
            book,
            own,
            session,
            Change::Retract { variable },
        ),
        Call::Bound {
            session,
            cost,
            most,
        } => change(book, own, session, Change::Bound { cost, most }),
        Call::Unbound { session, cost } => change(book, own, session, Change::Unbound { cost }),
        Call::Rebase {
            session,
            version,
            dropping,
        } => rebase(book, own, session, version, dropping),
        Call::Close { session } => book.close(own, session),
        Call::Publish { base, file } => publish(alloc, book, own, base, file),
        Call::Reclaim { version } => book.reclaim(own, version),
        // An enter or a leave isn't made here.
        Call::Versions | Call::Enter | Call::Leave => book.versions(own),
    }
}

/// Asks for the listing of a session.
fn show(book: &mut Book, own: &mut Own, session: u64) -> Result<Reply, NoMemory>
    requires stands { StandsAfter (history_of book.old) own.old }
    requires settled { IsSettled own.old }
    ensures makes { IfOk result (Makes (Show session) book.old book.new own.old own.new) }
    ensures stays { OnErr result (StaysWith book.old book.new own.old own.new) }
{
    let reply = own.show(session)?;
    book.settle(own)?;
    Ok(reply)
}

/// Changes what a session asks.
fn change(book: &mut Book, own: &mut Own, session: u64, change: Change) -> Result<Reply, NoMemory>
    requires stands { StandsAfter (history_of book.old) own.old }
    requires settled { IsSettled own.old }
    ensures makes { IfOk result (Makes (change_call session change) book.old book.new own.old own.new) }
    ensures stays { OnErr result (StaysWith book.old book.new own.old own.new) }
{
    let reply = own.change(session, change)?;
    book.settle(own)?;
    Ok(reply)
}

/// Moves a session to another version.
fn rebase(
    book: &mut Book,
    own: &mut Own,
    session: u64,
    version: u64,
    dropping: bool,
) -> Result<Reply, NoMemory>
    requires stands { StandsAfter (history_of book.old) own.old }
    requires settled { IsSettled own.old }
    ensures makes { IfOk result (Makes (Rebase session version dropping) book.old book.new own.old own.new) }
    ensures stays { OnErr result (StaysWith book.old book.new own.old own.new) }
{
    let made = book.prepared(own, session, version, dropping)?;
    book.rebase(own, session, version, dropping, made)
}

/// Makes a file the next version.
fn publish(
    alloc: Global,
    book: &mut Book,
    own: &mut Own,
    base: u64,
    file: SharedFile,
) -> Result<Reply, NoMemory>
    requires stands { StandsAfter (history_of book.old) own.old }
    requires settled { IsSettled own.old }
    ensures makes { IfOk result (Makes (Publish base file) book.old book.new own.old own.new) }
    ensures stays { OnErr result (StaysWith book.old book.new own.old own.new) }
{
    let built = compile(alloc, file.share()?);
    book.publish(own, base, file, built)
}
