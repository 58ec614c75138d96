//! The calls of the generator's caller.

ghost use Rattle.std.specs.Prelude.{◌≡◌, [], Ok, IfOk};
ghost use Rattle.pc_calls.specs.declared.call.Call.TheVariants.{Enter, Open, Bound, Publish};
ghost use Rattle.pc_calls.specs.State.{empty};
ghost use Rattle.pc_calls.specs.Step.{after};
ghost use Rattle.pc_book.specs.Book.{history_of};
ghost use Rattle.pc_book.specs.Own.{StandsAfter};
ghost use Rattle.pc_book.specs.Sharing.{IsBuilt};
ghost use Rattle.pc_generator.specs.GeneratedFile.{generated};
ghost use Rattle.pc_generator.specs.GeneratorCalls.{after_calls, generator_caller, publishing};
ghost use Rattle.pc_generator.specs.Answers.{AreAnswers};
ghost use Rattle.pc_generator.specs.Standing.{IsAt, IsCalled};

use crate::bounds::{most_days, most_price};
use crate::file::{days, price};
use crate::size::Size;
use pc_base::NoMemory;
use pc_book::{Book, Own};
use pc_build::Version;
use pc_calls::Reply;
use pc_file::SharedFile;
use pc_names::Name;

/// What the three sessions were answered: the one without a bound, and those with a bound on the price and on the days.
#[derive(Debug, Drop)]
pub struct Answers {
    pub unbounded: Reply,
    pub price_bounded: Reply,
    pub days_bounded: Reply,
}

/// A caller enters, publishes the file, asks three sessions and leaves.
pub fn ask(
    book: &mut Book,
    size: Size,
    file: SharedFile,
    version: Version,
) -> Result<Answers, NoMemory>
    requires none { book.old ≡ [] }
    requires file { file ≡ generated size }
    requires built { IsBuilt file (Ok version) }
    ensures { IfOk result (AreAnswers size) }
{
    let mut own = book.enter()?;
    let answers = publish_and_ask(book, &mut own, size, file, version);
    book.leave(own);
    answers
}

/// The caller that has just entered publishes the file and asks three sessions.
fn publish_and_ask(
    book: &mut Book,
    own: &mut Own,
    size: Size,
    file: SharedFile,
    version: Version,
) -> Result<Answers, NoMemory>
    requires entered { IsAt (after generator_caller Enter empty) book.old own.old }
    requires file { file ≡ generated size }
    requires built { IsBuilt file (Ok version) }
    ensures answers { IfOk result (AreAnswers size) }
    ensures stands { StandsAfter (history_of book.new) own.new }
{
    publish(book, own, file, version)?;
    ask_sessions(book, own, size)
}

/// The caller that has published the file opens three sessions, and bounds two of them.
fn ask_sessions(book: &mut Book, own: &mut Own, size: Size) -> Result<Answers, NoMemory>
    requires published { IsAt (after_calls empty (publishing size)) book.old own.old }
    ensures answers { IfOk result (AreAnswers size) }
    ensures stands { StandsAfter (history_of book.new) own.new }
{
    let first = open(book, own)?;
    open(book, own)?;
    open(book, own)?;
    let second = bound(book, own, 2, price(), most_price(size))?;
    let third = bound(book, own, 3, days(), most_days(size))?;
    Ok(Answers {
        unbounded: first,
        price_bounded: second,
        days_bounded: third,
    })
}

/// The caller publishes a file over nothing. The compiler made the version of it.
fn publish(
    book: &mut Book,
    own: &mut Own,
    file: SharedFile,
    version: Version,
) -> Result<Reply, NoMemory>
    requires stands { StandsAfter (history_of book.old) own.old }
    requires built { IsBuilt file (Ok version) }
    ensures called { IfOk result (IsCalled (Publish 0 file) book.old own.old book.new own.new) }
    ensures stands { StandsAfter (history_of book.new) own.new }
{
    book.publish(own, 0, file, Ok(version))
}

/// The caller opens its next session.
fn open(book: &mut Book, own: &mut Own) -> Result<Reply, NoMemory>
    requires stands { StandsAfter (history_of book.old) own.old }
    ensures called { IfOk result (IsCalled Open book.old own.old book.new own.new) }
    ensures stands { StandsAfter (history_of book.new) own.new }
{
    book.open_session(own)
}

/// The caller bounds a cost of a session.
fn bound(
    _book: &Book,
    own: &mut Own,
    session: u64,
    cost: Name,
    most: i64,
) -> Result<Reply, NoMemory>
    requires stands { StandsAfter (history_of _book.now) own.old }
    ensures called { IfOk result (IsCalled (Bound session cost most) _book.now own.old _book.now own.new) }
    ensures stands { StandsAfter (history_of _book.now) own.new }
{
    own.bound(session, cost, most)
}
