//! The open sessions of one caller.

ghost use Rattle.std.specs.Prelude.{◌≡◌, ◌==◌, ◌<◌, ◌≤◌, ◌+◌, ◌^◌, ◌++◌, ◌∷◌, [], not, filter, length, position, find, IfOk, OnOk, OnErr, IfSome, Some, None, Ok, Err};
ghost use Rattle.pc_calls.specs.declared.outcome.Outcome.TheVariants.{Done};
ghost use Rattle.pc_calls.specs.Selection.{free, show, shown};
ghost use Rattle.pc_session.specs.Visit.{session_answer, visit_after};
ghost use Rattle.pc_book.specs.Change.{changed};
ghost use Rattle.pc_book.specs.Rebases.{IsPrepared, given_by, rebase_given, visit_version, with_visit};
ghost use Rattle.pc_book.specs.Visits.{has_number, plain_head, close_reply, reply_among, visits_after, without_number};

use crate::change::Change;
use crate::replying::{plain_head, refused, replied};
use pc_base::{NoMemory, Sequence};
use pc_build::SharedVersion;
use pc_calls::{Head, Outcome, Reply, Shown};
use pc_diagram::Steps;
use pc_session::{Answer, Rebased, Session};
use std::alloc::Global;
use std::marker::Brand;
use std::sync::ledger::{Blank, Ledger};

/// The sessions that a caller has open, in the order in which they were opened, and how many it has opened.
#[derive(Debug, Drop)]
pub struct Guest {
    pub alloc: Global,
    pub opened: u64,
    pub sessions: Vec<Session>,
}

/// Where the session of a number stands.
fn place(sessions: &[Session], number: u64) -> Option<usize>
    ensures { result ≡ position (has_number number) sessions.now }
{
    sessions
        .iter()
        .position(|session| session.number() == number)
}

/// What a session answers to a change, whose steps are counted here alone.
fn changed<L: Ledger>(
    session: &mut Session,
    change: Change,
    blank: Blank,
) -> Result<Answer, NoMemory>
    requires name { blank.name ≡ L.name }
    requires parts { blank.parts ≡ L.parts }
    requires some { 0 < blank.parts }
    ensures answer { IfOk result (λ answer. answer ≡ session_answer session.old.file (changed change session.old.file session.old.selection)) }
    ensures session { OnOk result (session.new ≡ visit_after session.old (changed change session.old.file session.old.selection)) }
    ensures kept { OnErr result (session.new ≡ session.old) }
{
    let mut steps = Steps::<L>::new(blank);
    match change {
        Change::Choose { variable, value } => session.choose(&variable, &value, &mut steps),
        Change::Retract { variable } => session.retract(&variable, &mut steps),
        Change::Bound { cost, most } => session.bound(&cost, most),
        Change::Unbound { cost } => session.unbound(&cost),
    }
}

/// The reply to a rebase of a session at a version, and the session at the other one, where this was made.
fn answer_made(
    alloc: Global,
    number: u64,
    at: u64,
    made: Rebased,
) -> Result<(Reply, Option<Session>), NoMemory>
    ensures { IfOk result (λ p. p ≡ given_by number at made) }
{
    match made {
        Rebased::Refused(refusal) => Ok((refused(alloc, number, at, refusal), None)),
        Rebased::Ready(session, listing, dropped) => {
            let file = session.file().share()?;
            let head = Head {
                session: number,
                version: session.version(),
                outcome: Outcome::Done,
                live: Sequence::new(alloc),
                dropped,
            };
            let shown = Some(Shown { file, listing });
            Ok((Reply { head, shown }, Some(session)))
        }
    }
}

impl Guest {
    /// How many sessions are open.
    pub fn count(&self) -> usize
        ensures { result ≡ length self.now.sessions.items }
    {
        self.sessions.as_slice().len()
    }

    /// Opens a session at a version, which has this number.
    pub fn open(&mut self, version_number: u64, version: SharedVersion) -> Result<Reply, NoMemory>
        requires room { self.old.opened < 2 ^ 63 }
        ensures reply { IfOk result (λ reply. reply ≡ record { head = plain_head (self.old.opened + 1) version_number Done; shown = Some (record { file = version.file; listing = shown version.file free }) }) }
        ensures sessions { OnOk result (self.new.sessions.items ≡ self.old.sessions.items ++ record { number = self.old.opened + 1; version = version_number; file = version.file; selection = free } ∷ []) }
        ensures opened { OnOk result (self.new.opened ≡ self.old.opened + 1) }
        ensures kept { OnErr result ((self.new.sessions.items ≡ self.old.sessions.items) × (self.new.opened ≡ self.old.opened)) }
    {
        let number = self.opened + 1;
        let (session, listing) = Session::start(self.alloc, number, version, version_number)?;
        let shown = Shown {
            file: session.file().share()?,
            listing,
        };
        self.sessions.push(session)?;
        self.opened = number;
        Ok(Reply {
            head: plain_head(self.alloc, number, version_number, Outcome::Done),
            shown: Some(shown),
        })
    }

    /// The listing of a session.
    pub fn show(&self, number: u64) -> Result<Reply, NoMemory>
        ensures { IfOk result (λ reply. reply ≡ reply_among number show self.now.sessions.items) }
    {
        let Some(place) = place(self.sessions.as_slice(), number) else {
            return Ok(refused(self.alloc, number, 0, Outcome::NoSession));
        };
        let session = &self.sessions[place];
        let file = session.file().share()?;
        let answer = Answer {
            outcome: Outcome::Done,
            listing: Some(session.show()?),
        };
        Ok(replied(self.alloc, session, file, answer))
    }

    /// Changes what a session asks.
    pub fn change(&mut self, number: u64, change: Change) -> Result<Reply, NoMemory>
        ensures reply { IfOk result (λ reply. reply ≡ reply_among number (changed change) self.old.sessions.items) }
        ensures sessions { OnOk result (self.new.sessions.items ≡ visits_after number (changed change) self.old.sessions.items) }
        ensures kept { OnErr result (self.new.sessions.items ≡ self.old.sessions.items) }
        ensures opened { self.new.opened ≡ self.old.opened }
    {
        let Some(place) = place(self.sessions.as_slice(), number) else {
            return Ok(refused(self.alloc, number, 0, Outcome::NoSession));
        };
        let session = &mut self.sessions[place];
        let file = session.file().share()?;
        let answer = changed::<Brand>(session, change, Blank::new(1))?;
        Ok(replied(self.alloc, session, file, answer))
    }

    /// Ends a session.
    pub fn close(&mut self, number: u64) -> Reply
        ensures reply { result ≡ close_reply number (find (has_number number) self.old.sessions.items) }
        ensures sessions { self.new.sessions.items ≡ without_number number self.old.sessions.items }
        ensures opened { self.new.opened ≡ self.old.opened }
    {
        let Some(place) = place(self.sessions.as_slice(), number) else {
            return refused(self.alloc, number, 0, Outcome::NoSession);
        };
        let session = self.sessions.remove(place);
        Reply {
            head: plain_head(self.alloc, number, session.version(), Outcome::Done),
            shown: None,
        }
    }

    /// A session as it moves to another version, which has this number: nothing where there is no such session or it is there.
    pub fn prepare(
        &self,
        number: u64,
        version: u64,
        target: &SharedVersion,
        dropping: bool,
    ) -> Result<Option<Rebased>, NoMemory>
        ensures { IfOk result (IsPrepared (find (has_number number) self.now.sessions.items) version target.now.file dropping) }
    {
        let Some(place) = place(self.sessions.as_slice(), number) else {
            return Ok(None);
        };
        let session = &self.sessions[place];
        if version == session.version() {
            return Ok(None);
        }
        Ok(Some(session.rebased(target, version, dropping)?))
    }

    /// The reply to a rebase of a session, and the session that is ready at the other version, if it moves.
    pub fn answer_rebase(
        &self,
        number: u64,
        version: u64,
        live: bool,
        made: Option<Rebased>,
    ) -> Result<(Reply, Option<Session>), NoMemory>
        ensures { IfOk result (λ p. p ≡ rebase_given number version live made (find (has_number number) self.now.sessions.items)) }
    {
        let Some(place) = place(self.sessions.as_slice(), number) else {
            return Ok((refused(self.alloc, number, 0, Outcome::NoSession), None));
        };
        let at = self.sessions[place].version();
        if version == at {
            return Ok((refused(self.alloc, number, at, Outcome::SameVersion), None));
        }
        if !live {
            return Ok((
                refused(self.alloc, number, at, Outcome::NotLive { version }),
                None,
            ));
        }
        match made {
            None => Ok((refused(self.alloc, number, at, Outcome::NoSession), None)),
            Some(made) => answer_made(self.alloc, number, at, made),
        }
    }

    /// A session takes the place of the one of its number, whose version is told.
    pub fn exchange(&mut self, session: Session) -> u64
        ensures version { result ≡ visit_version session.number self.old.sessions.items }
        ensures sessions { self.new.sessions.items ≡ with_visit session self.old.sessions.items }
        ensures opened { self.new.opened ≡ self.old.opened }
    {
        let Some(place) = place(self.sessions.as_slice(), session.number()) else {
            return 0;
        };
        let left = self.sessions[place].version();
        self.sessions[place] = session;
        left
    }
}
