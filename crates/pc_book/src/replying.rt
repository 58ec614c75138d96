//! Replies to the calls of one caller.

ghost use Rattle.std.specs.Prelude.{◌≡◌, None, IfOk};
ghost use Rattle.pc_book.specs.Visits.{plain_head, shown_with};

use pc_base::{NoMemory, Sequence};
use pc_calls::{Head, Outcome, Reply, Shown};
use pc_diagram::Listing;
use pc_file::SharedFile;
use pc_session::{Answer, Session};
use std::alloc::Global;

/// A head that lists nothing.
pub fn plain_head(alloc: Global, session: u64, version: u64, outcome: Outcome) -> Head
    ensures { result ≡ plain_head session version outcome }
{
    Head {
        session,
        version,
        outcome,
        live: Sequence::new(alloc),
        dropped: Sequence::new(alloc),
    }
}

/// A head once more, with what it lists.
pub(crate) fn head_again(alloc: Global, head: &Head) -> Result<Head, NoMemory>
    ensures { IfOk result (λ again. again ≡ head.now) }
{
    Ok(Head {
        session: head.session,
        version: head.version,
        outcome: head.outcome,
        live: Sequence::from_slice(alloc, head.live.as_slice())?,
        dropped: Sequence::from_slice(alloc, head.dropped.as_slice())?,
    })
}

/// The reply to a call that was refused.
pub fn refused(alloc: Global, session: u64, version: u64, refusal: Outcome) -> Reply
    ensures { result ≡ record { head = plain_head session version refusal; shown = None } }
{
    Reply {
        head: plain_head(alloc, session, version, refusal),
        shown: None,
    }
}

/// A file with a listing, where there is one.
fn shown_with(file: SharedFile, listing: Option<Listing>) -> Option<Shown>
    ensures { result ≡ shown_with file listing }
{
    match listing {
        Some(listing) => Some(Shown { file, listing }),
        None => None,
    }
}

/// The reply to what a session with this file answered.
pub(crate) fn replied(alloc: Global, session: &Session, file: SharedFile, answer: Answer) -> Reply
    requires { file ≡ session.now.file }
    ensures { result ≡ record { head = plain_head session.now.number session.now.version answer.outcome; shown = shown_with session.now.file answer.listing } }
{
    Reply {
        head: plain_head(alloc, session.number(), session.version(), answer.outcome),
        shown: shown_with(file, answer.listing),
    }
}
