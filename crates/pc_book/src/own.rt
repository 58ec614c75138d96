//! A caller's own part of the shop.

ghost use Rattle.std.specs.Prelude.{◌≡◌, ◌<◌, List, [], ◌∷◌, ◌++◌, find, option_map, IfOk, OnOk, OnErr, ◌+◌, ◌^◌, length, Some};
ghost use Rattle.pc_calls.specs.declared.call.Call.TheVariants.{Show, Choose, Retract, Bound, Unbound};
ghost use Rattle.pc_calls.specs.declared.entry.Entry.{Entry};
ghost use Rattle.pc_calls.specs.Selection.{show, free, shown};
ghost use Rattle.pc_book.specs.Change.{change_call, changed};
ghost use Rattle.pc_book.specs.Own.{OwnPart, Serves, StandsAfter, own_after};
ghost use Rattle.pc_book.specs.Visits.{close_reply, has_number, plain_head, reply_among, without_number};
ghost use Rattle.pc_calls.specs.declared.outcome.Outcome.TheVariants.{Done};
ghost use Rattle.pc_book.specs.Sharing.{with_visit};
ghost use Rattle.pc_book.specs.Rebases.{IsPrepared, rebase_given, visit_version, with_ready};

use crate::change::Change;
use crate::guest::Guest;
use crate::replying::{head_again, plain_head};
use pc_base::{NoMemory, Reserved, Sequence};
use pc_build::SharedVersion;
use pc_calls::{Call, Entry, Head, Reply};
use pc_names::Name;
use pc_session::{Rebased, Session};
use std::alloc::Global;
use std::marker::Model;
use std::mem;

/// A caller's number, its open sessions, and its entries that wait for the journal. One more entry always has its place,
/// so that a leave takes no memory.
#[derive(Debug, Drop)]
pub struct Own {
    number: u64,
    guest: Guest,
    pending: Reserved<Entry>,
}

impl Model for Own {
    ghost use Rattle.std.specs.Prelude.{◌<◌};
    ghost use Rattle.std.specs.Coded.{codes};
    ghost use Rattle.pc_file.specs.contracts.shared_file.SharedFile as shared;
    ghost use Rattle.pc_book.specs.Own.{OwnPart};

    ghost Value = { OwnPart };

    ghost coded = { Prim.hlevel (codes, shared.the_row.coded) };

    ghost view = { λ s. record { number = s.number; opened = s.guest.opened; sessions = s.guest.sessions.items; pending = s.pending.items } };

    ghost invariant = { λ s. 0 < s.pending.reserved };
}

/// The entry of a call whose answer lists nothing besides its head.
pub(crate) fn noted(alloc: Global, caller: u64, call: Call, head: &Head) -> Entry
    ensures { result ≡ record { caller = caller; call = call; head = plain_head head.now.session head.now.version head.now.outcome } }
{
    Entry {
        caller,
        call,
        head: plain_head(alloc, head.session, head.version, head.outcome),
    }
}

impl Own {
    /// The part of a caller that has just entered, with a list in which its entries wait.
    pub(crate) fn new(alloc: Global, number: u64, pending: Reserved<Entry>) -> Own
        requires none { pending.items ≡ [] }
        requires place { 0 < pending.reserved }
        ensures { result ≡ record { number = number; opened = 0; sessions = []; pending = [] } }
    {
        Own {
            number,
            guest: Guest {
                alloc,
                opened: 0,
                sessions: Vec::new(alloc),
            },
            pending,
        }
    }

    /// The block of the waiting entries with one more. What waits from now on has another list.
    pub(crate) fn seal(&mut self, entry: Entry, pending: Reserved<Entry>) -> Sequence<Entry>
        requires none { pending.items ≡ [] }
        requires place { 0 < pending.reserved }
        ensures block { result ≡ self.old.pending ++ entry ∷ [] }
        ensures part { self.new ≡ record { number = self.old.number; opened = self.old.opened; sessions = self.old.sessions; pending = [] } }
    {
        let mut waiting = mem::replace(&mut self.pending, pending);
        waiting.push(entry);
        waiting.into_sequence()
    }

    /// The block of the waiting entries. What waits from now on has another list.
    pub(crate) fn settle(&mut self, pending: Reserved<Entry>) -> Sequence<Entry>
        requires none { pending.items ≡ [] }
        requires place { 0 < pending.reserved }
        ensures block { result ≡ self.old.pending }
        ensures part { self.new ≡ record { number = self.old.number; opened = self.old.opened; sessions = self.old.sessions; pending = [] } }
    {
        mem::replace(&mut self.pending, pending).into_sequence()
    }

    /// The caller leaves: the block of its waiting entries with the last one, and its open sessions.
    pub(crate) fn leave(self, entry: Entry) -> (Sequence<Entry>, Vec<Session>)
        ensures block { result.0 ≡ self.pending ++ entry ∷ [] }
        ensures sessions { result.1.items ≡ self.sessions }
    {
        let Own {
            number: _,
            guest,
            mut pending,
        } = self;
        pending.push(entry);
        (pending.into_sequence(), guest.sessions)
    }

    /// Ends a session.
    pub(crate) fn close(&mut self, session: u64) -> Reply
        ensures reply { result ≡ close_reply session (find (has_number session) self.old.sessions) }
        ensures part { self.new ≡ record { number = self.old.number; opened = self.old.opened; sessions = without_number session self.old.sessions; pending = self.old.pending } }
    {
        self.guest.close(session)
    }

    /// How many sessions are open.
    pub(crate) fn count(&self) -> usize
        ensures { result ≡ length self.now.sessions }
    {
        self.guest.count()
    }

    /// Opens a session at a version, which has this number.
    pub(crate) fn open(
        &mut self,
        version_number: u64,
        version: SharedVersion,
    ) -> Result<Reply, NoMemory>
        requires room { self.old.opened < 2 ^ 63 }
        ensures reply { IfOk result (λ reply. reply ≡ record { head = plain_head (self.old.opened + 1) version_number Done; shown = Some (record { file = version.file; listing = shown version.file free }) }) }
        ensures part { OnOk result (self.new ≡ with_visit version_number version.file self.old) }
        ensures kept { OnErr result (self.new ≡ self.old) }
    {
        self.guest.open(version_number, version)
    }

    /// A session as it moves to another version, which has this number: nothing where there is no such session or it is there.
    ///
    /// # Errors
    ///
    /// Want of memory.
    pub fn prepare(
        &self,
        session: u64,
        version: u64,
        target: &SharedVersion,
        dropping: bool,
    ) -> Result<Option<Rebased>, NoMemory>
        ensures { IfOk result (IsPrepared (find (has_number session) self.now.sessions) version target.now.file dropping) }
    {
        self.guest.prepare(session, version, target, dropping)
    }

    /// A rebase of a session to a version that is live or not, where this was made of it: the reply, its head once more, and the version that the session leaves, if it moves.
    pub(crate) fn rebase(
        &mut self,
        session: u64,
        version: u64,
        live: bool,
        made: Option<Rebased>,
    ) -> Result<(Reply, Head, Option<u64>), NoMemory>
        ensures reply { IfOk result (λ p. p.0 ≡ (rebase_given session version live made (find (has_number session) self.old.sessions)).0) }
        ensures head { IfOk result (λ p. p.1 ≡ (rebase_given session version live made (find (has_number session) self.old.sessions)).0.head) }
        ensures left { IfOk result (λ p. p.2 ≡ option_map (λ visit. visit_version visit.number self.old.sessions) (rebase_given session version live made (find (has_number session) self.old.sessions)).1) }
        ensures part { OnOk result (self.new ≡ record { number = self.old.number; opened = self.old.opened; sessions = with_ready (rebase_given session version live made (find (has_number session) self.old.sessions)).1 self.old.sessions; pending = self.old.pending }) }
        ensures kept { OnErr result (self.new ≡ self.old) }
    {
        let (reply, ready) = self.guest.answer_rebase(session, version, live, made)?;
        let head = head_again(self.guest.alloc, &reply.head)?;
        let Some(ready) = ready else {
            return Ok((reply, head, None));
        };
        let left = self.guest.exchange(ready);
        Ok((reply, head, Some(left)))
    }

    /// Its number among the callers, from 1 on.
    pub fn caller(&self) -> u64
        ensures { result ≡ self.now.number }
    {
        self.number
    }

    /// The listing of a session.
    ///
    /// # Errors
    ///
    /// Want of memory.
    pub fn show(&mut self, session: u64) -> Result<Reply, NoMemory>
        ensures reply { IfOk result (λ reply. reply ≡ reply_among session show self.old.sessions) }
        ensures part { OnOk result (self.new ≡ own_after (Show session) session show self.old) }
        ensures kept { OnErr result (self.new ≡ self.old) }
        ensures serves { IfOk result (λ reply. (history : List Entry) → StandsAfter history self.old → Serves (Show session) self.old self.new reply history) }
    {
        self.pending.reserve(2)?;
        let reply = self.guest.show(session)?;
        let entry = noted(
            self.guest.alloc,
            self.number,
            Call::Show { session },
            &reply.head,
        );
        self.pending.push(entry);
        Ok(reply)
    }

    /// Chooses a value for a variable of a session.
    ///
    /// # Errors
    ///
    /// Want of memory.
    pub fn choose(&mut self, session: u64, variable: Name, value: Name) -> Result<Reply, NoMemory>
        ensures kept { OnErr result (self.new ≡ self.old) }
        ensures serves { IfOk result (λ reply. (history : List Entry) → StandsAfter history self.old → Serves (Choose session variable value) self.old self.new reply history) }
    {
        self.change(session, Change::Choose { variable, value })
    }

    /// Takes back the choice of a variable of a session.
    ///
    /// # Errors
    ///
    /// Want of memory.
    pub fn retract(&mut self, session: u64, variable: Name) -> Result<Reply, NoMemory>
        ensures kept { OnErr result (self.new ≡ self.old) }
        ensures serves { IfOk result (λ reply. (history : List Entry) → StandsAfter history self.old → Serves (Retract session variable) self.old self.new reply history) }
    {
        self.change(session, Change::Retract { variable })
    }

    /// Bounds a cost of a session.
    ///
    /// # Errors
    ///
    /// Want of memory.
    pub fn bound(&mut self, session: u64, cost: Name, most: i64) -> Result<Reply, NoMemory>
        ensures kept { OnErr result (self.new ≡ self.old) }
        ensures serves { IfOk result (λ reply. (history : List Entry) → StandsAfter history self.old → Serves (Bound session cost most) self.old self.new reply history) }
    {
        self.change(session, Change::Bound { cost, most })
    }

    /// Takes back the bound of a cost of a session.
    ///
    /// # Errors
    ///
    /// Want of memory.
    pub fn unbound(&mut self, session: u64, cost: Name) -> Result<Reply, NoMemory>
        ensures kept { OnErr result (self.new ≡ self.old) }
        ensures serves { IfOk result (λ reply. (history : List Entry) → StandsAfter history self.old → Serves (Unbound session cost) self.old self.new reply history) }
    {
        self.change(session, Change::Unbound { cost })
    }

    /// Changes what a session asks.
    pub fn change(&mut self, session: u64, change: Change) -> Result<Reply, NoMemory>
        ensures reply { IfOk result (λ reply. reply ≡ reply_among session (changed change) self.old.sessions) }
        ensures part { OnOk result (self.new ≡ own_after (change_call session change) session (changed change) self.old) }
        ensures kept { OnErr result (self.new ≡ self.old) }
        ensures serves { IfOk result (λ reply. (history : List Entry) → StandsAfter history self.old → Serves (change_call session change) self.old self.new reply history) }
    {
        self.pending.reserve(2)?;
        let call = change.call(session);
        let reply = self.guest.change(session, change)?;
        let entry = noted(self.guest.alloc, self.number, call, &reply.head);
        self.pending.push(entry);
        Ok(reply)
    }
}
