//! The book of a shop: its live versions, its callers, and the journal of all calls.

ghost use Rattle.std.specs.Prelude.{◌≡◌, ◌≢◌, List, [], ◌∷◌, ◌++◌, ◌+◌, ◌-◌, ◌≤◌, ◌<◌, ◌^◌, length, map, slice_get, Some, IfOk, OnOk, OnErr};
ghost use Rattle.pc_calls.specs.declared.call.Call.TheVariants.{Close, Enter, Leave, Versions, Open, Reclaim, Publish, Rebase};
ghost use Rattle.pc_calls.specs.declared.outcome.Outcome.TheVariants.{Done};
ghost use Rattle.pc_calls.specs.History.{IsLegal, entry_of};
ghost use Rattle.pc_calls.specs.Heads.{reply};
ghost use Rattle.pc_book.specs.Book.{Shares, history_of, next_caller, state_of_book, with_entry};
ghost use Rattle.pc_book.specs.Own.{StandsAfter, state_with};
ghost use Rattle.pc_book.specs.Shelves.{live_at};
ghost use Rattle.pc_book.specs.Rebases.{IsMadeAt, IsTarget};
ghost use Rattle.pc_book.specs.Sharing.{IsBuilt};

use crate::opening::open_at_last;
use crate::own::{Own, noted};
use crate::publishing::shelve_built;
use crate::rebasing::move_session;
use crate::replying::{plain_head, refused};
use crate::shelf::{Shelf, place, retire, unpin, unpin_all};
use pc_base::{NoMemory, Reserved, Sequence};
use pc_build::{BuildFault, SharedVersion, Version};
use pc_calls::{Call, Entry, Head, Live, LiveList, Outcome, Reply};
use pc_file::SharedFile;
use pc_session::Rebased;
use std::alloc::Global;
use std::marker::Model;

/// Entries of one caller that went into the journal together, in the order of its calls.
pub type Block = Sequence<Entry>;

/// All blocks, in the order in which they went in.
pub type Journal = Sequence<Block>;

/// The live versions in order of their numbers, how many callers have entered and how many of them haven't left, the number
/// of the current version, and the journal, in which the last block of each caller that is present has its place.
#[derive(Debug)]
pub struct Book {
    alloc: Global,
    shelves: Vec<Shelf>,
    entered: u64,
    present: usize,
    current: u64,
    journal: Reserved<Block>,
}

impl Model for Book {
    ghost use Rattle.std.specs.Prelude.{List, map, ◌≤◌};
    ghost use Rattle.std.specs.Coded.{codes};
    ghost use Rattle.pc_file.specs.contracts.shared_file.SharedFile as shared;
    ghost use Rattle.pc_calls.specs.declared.entry.Entry.{Entry};
    ghost use Rattle.pc_book.specs.Book.{IsBook};
    ghost use Rattle.pc_book.specs.Shelves.{shelved};

    ghost Value = { List (List Entry) };

    ghost coded = { Prim.hlevel (codes, shared.the_row.coded) };

    ghost view = { λ s. s.journal.items };

    ghost invariant = { λ s. IsBook s.journal.items (map shelved s.shelves.items) s.entered s.present s.current × (s.present ≤ s.journal.reserved) };
}

/// A journal has no more blocks than this: memory ends long before.
const MOST_BLOCKS: usize = 1 << 62;

/// Sees to it that a journal has places for one or two blocks beside the last ones of all that are present.
fn make_room(journal: &mut Reserved<Block>, present: usize, blocks: usize) -> Result<(), NoMemory>
    requires present { present ≤ length journal.old.items }
    requires few { blocks ≤ 2 }
    ensures items { journal.new.items ≡ journal.old.items }
    ensures room { OnOk result (present + blocks ≤ journal.new.reserved) }
    ensures small { OnOk result (length journal.old.items < 2 ^ 62) }
    ensures kept { journal.old.reserved ≤ journal.new.reserved }
{
    if journal.as_slice().len() >= MOST_BLOCKS {
        return Err(NoMemory);
    }
    journal.reserve(present + blocks)
}

/// The live versions and their pins.
fn live_list(alloc: Global, shelves: &[Shelf]) -> Result<LiveList, NoMemory>
    ensures { IfOk result (λ live. live ≡ map live_at shelves.now) }
{
    let mut live = Sequence::new(alloc);
    for shelf in shelves {
        live.push(Live {
            version: shelf.number,
            pins: shelf.pins,
        })?;
    }
    Ok(live)
}

/// The head that tells the current version and the live ones.
fn live_head(alloc: Global, current: u64, shelves: &[Shelf]) -> Result<Head, NoMemory>
    ensures { IfOk result (λ head. head ≡ record { session = 0; version = current; outcome = Done; live = map live_at shelves.now; dropped = [] }) }
{
    Ok(Head {
        session: 0,
        version: current,
        outcome: Outcome::Done,
        live: live_list(alloc, shelves)?,
        dropped: Sequence::new(alloc),
    })
}

impl Book {
    /// Nothing was called.
    pub fn new(alloc: Global) -> Book
        ensures { result ≡ [] }
    {
        Book {
            alloc,
            shelves: Vec::new(alloc),
            entered: 0,
            present: 0,
            current: 0,
            journal: Reserved::new(alloc),
        }
    }

    /// A caller enters, with the next number.
    ///
    /// # Errors
    ///
    /// Want of memory.
    pub fn enter(&mut self) -> Result<Own, NoMemory>
        ensures entered { IfOk result (λ own. own ≡ record { number = next_caller self.old; opened = 0; sessions = []; pending = [] }) }
        ensures appended { OnOk result (self.new ≡ self.old ++ (entry_of (state_of_book self.old) (next_caller self.old) Enter ∷ []) ∷ []) }
        ensures stands { IfOk result (λ own. StandsAfter (history_of self.new) own) }
        ensures kept { OnErr result (self.new ≡ self.old) }
    {
        make_room(&mut self.journal, self.present, 2)?;
        let mut block = Reserved::with_capacity(self.alloc, 1)?;
        let pending = Reserved::with_capacity(self.alloc, 1)?;
        let number = self.entered + 1;
        block.push(Entry {
            caller: number,
            call: Call::Enter,
            head: plain_head(self.alloc, 0, 0, Outcome::Done),
        });
        self.journal.push(block.into_sequence());
        self.entered = number;
        self.present += 1;
        Ok(Own::new(self.alloc, number, pending))
    }

    /// Asks for the live versions, each with the number of open sessions at it.
    ///
    /// # Errors
    ///
    /// Want of memory.
    pub fn versions(&mut self, own: &mut Own) -> Result<Reply, NoMemory>
        requires stands { StandsAfter (history_of self.old) own.old }
        ensures shares { IfOk result (λ reply. Shares Versions self.old self.new own.old own.new reply) }
        ensures kept { OnErr result ((self.new ≡ self.old) × (own.new ≡ own.old)) }
    {
        make_room(&mut self.journal, self.present, 1)?;
        let pending = Reserved::with_capacity(self.alloc, 1)?;
        let noted = live_head(self.alloc, self.current, self.shelves.as_slice())?;
        let reply = Reply {
            head: live_head(self.alloc, self.current, self.shelves.as_slice())?,
            shown: None,
        };
        let entry = Entry {
            caller: own.caller(),
            call: Call::Versions,
            head: noted,
        };
        let block = own.seal(entry, pending);
        self.journal.push(block);
        Ok(reply)
    }

    /// Ends a session of a caller.
    ///
    /// # Errors
    ///
    /// Want of memory.
    pub fn close(&mut self, own: &mut Own, session: u64) -> Result<Reply, NoMemory>
        requires stands { StandsAfter (history_of self.old) own.old }
        ensures shares { IfOk result (λ reply. Shares (Close session) self.old self.new own.old own.new reply) }
        ensures kept { OnErr result ((self.new ≡ self.old) × (own.new ≡ own.old)) }
    {
        make_room(&mut self.journal, self.present, 1)?;
        let pending = Reserved::with_capacity(self.alloc, 1)?;
        let reply = own.close(session);
        let entry = noted(
            self.alloc,
            own.caller(),
            Call::Close { session },
            &reply.head,
        );
        // A refused close tells version 0, which no shelf has.
        unpin(&mut self.shelves, reply.head.version);
        let block = own.seal(entry, pending);
        self.journal.push(block);
        Ok(reply)
    }

    /// Puts the entries of a caller that wait into the journal.
    ///
    /// # Errors
    ///
    /// Want of memory.
    pub fn settle(&mut self, own: &mut Own) -> Result<(), NoMemory>
        requires stands { StandsAfter (history_of self.old) own.old }
        ensures appended { OnOk result (self.new ≡ self.old ++ own.old.pending ∷ []) }
        ensures part { OnOk result (own.new ≡ record { number = own.old.number; opened = own.old.opened; sessions = own.old.sessions; pending = [] }) }
        ensures stands { OnOk result (StandsAfter (history_of self.new) own.new) }
        ensures kept { OnErr result ((self.new ≡ self.old) × (own.new ≡ own.old)) }
    {
        make_room(&mut self.journal, self.present, 1)?;
        let pending = Reserved::with_capacity(self.alloc, 1)?;
        let block = own.settle(pending);
        self.journal.push(block);
        Ok(())
    }

    /// A caller leaves: its sessions end. It takes no memory.
    pub fn leave(&mut self, own: Own) -> Reply
        requires stands { StandsAfter (history_of self.old) own }
        ensures reply { result ≡ reply own.number Leave (state_with (history_of self.old) own) }
        ensures appended { self.new ≡ with_entry self.old own Leave }
    {
        let entry = Entry {
            caller: own.caller(),
            call: Call::Leave,
            head: plain_head(self.alloc, 0, 0, Outcome::Done),
        };
        let (block, sessions) = own.leave(entry);
        unpin_all(&mut self.shelves, sessions.as_slice());
        self.present -= 1;
        self.journal.push(block);
        Reply {
            head: plain_head(self.alloc, 0, 0, Outcome::Done),
            shown: None,
        }
    }

    /// The journal's last block. Each call that appends appends one.
    pub fn last(&self) -> &Block
        requires some { self.now ≢ [] }
        ensures { Some result.now ≡ slice_get self.now (length self.now - 1) }
    {
        let blocks = self.journal.as_slice();
        &blocks[blocks.len() - 1]
    }

    /// The journal.
    pub fn finish(self) -> Journal
        ensures blocks { result ≡ self }
        ensures legal { IsLegal (history_of result) }
    {
        let Book {
            alloc: _,
            shelves: _shelves,
            entered: _,
            present: _,
            current: _,
            journal,
        } = self;
        journal.into_sequence()
    }

    /// Opens a caller's next session, at the current version.
    ///
    /// # Errors
    ///
    /// Want of memory.
    pub fn open_session(&mut self, own: &mut Own) -> Result<Reply, NoMemory>
        requires stands { StandsAfter (history_of self.old) own.old }
        ensures shares { IfOk result (λ reply. Shares Open self.old self.new own.old own.new reply) }
        ensures kept { OnErr result ((self.new ≡ self.old) × (own.new ≡ own.old)) }
    {
        make_room(&mut self.journal, self.present, 1)?;
        let pending = Reserved::with_capacity(self.alloc, 1)?;
        let reply = open_at_last(self.alloc, self.shelves.as_mut_slice(), own)?;
        let entry = noted(self.alloc, own.caller(), Call::Open, &reply.head);
        let block = own.seal(entry, pending);
        self.journal.push(block);
        Ok(reply)
    }

    /// A version that isn't current and has no session is live no more.
    ///
    /// # Errors
    ///
    /// Want of memory.
    pub fn reclaim(&mut self, own: &mut Own, version: u64) -> Result<Reply, NoMemory>
        requires stands { StandsAfter (history_of self.old) own.old }
        ensures shares { IfOk result (λ reply. Shares (Reclaim version) self.old self.new own.old own.new reply) }
        ensures kept { OnErr result ((self.new ≡ self.old) × (own.new ≡ own.old)) }
    {
        make_room(&mut self.journal, self.present, 1)?;
        let pending = Reserved::with_capacity(self.alloc, 1)?;
        let outcome = retire(&mut self.shelves, version, self.current);
        let reply = refused(self.alloc, 0, version, outcome);
        let caller = own.caller();
        let entry = noted(self.alloc, caller, Call::Reclaim { version }, &reply.head);
        let block = own.seal(entry, pending);
        self.journal.push(block);
        Ok(reply)
    }

    /// The version of a number, where it is live.
    ///
    /// # Errors
    ///
    /// Too many hold the version.
    pub fn target(&self, version: u64) -> Result<Option<SharedVersion>, NoMemory>
        ensures { IfOk result (IsTarget (state_of_book self.now) version) }
    {
        let Some(place) = place(self.shelves.as_slice(), version) else {
            return Ok(None);
        };
        Ok(Some(self.shelves[place].version.share()?))
    }

    /// How many callers have entered.
    pub fn entered(&self) -> u64
        ensures { result ≡ length (state_of_book self.now).callers }
    {
        self.entered
    }

    /// What a session of a caller becomes at a version that is live; nothing where it isn't live, or the session isn't there or is at it.
    ///
    /// # Errors
    ///
    /// Want of memory.
    pub fn prepared(
        &self,
        own: &Own,
        session: u64,
        version: u64,
        dropping: bool,
    ) -> Result<Option<Rebased>, NoMemory>
        ensures { IfOk result (IsMadeAt (state_of_book self.now) own.now session version dropping) }
    {
        let Some(target) = self.target(version)? else {
            return Ok(None);
        };
        own.prepare(session, version, &target, dropping)
    }

    /// A session moves to another live version, with what was made of it for that version.
    ///
    /// # Errors
    ///
    /// Want of memory.
    pub fn rebase(
        &mut self,
        own: &mut Own,
        session: u64,
        version: u64,
        dropping: bool,
        made: Option<Rebased>,
    ) -> Result<Reply, NoMemory>
        requires stands { StandsAfter (history_of self.old) own.old }
        requires made { IsMadeAt (state_of_book self.old) own.old session version dropping made }
        ensures shares { IfOk result (λ reply. Shares (Rebase session version dropping) self.old self.new own.old own.new reply) }
        ensures kept { OnErr result ((self.new ≡ self.old) × (own.new ≡ own.old)) }
    {
        make_room(&mut self.journal, self.present, 1)?;
        let pending = Reserved::with_capacity(self.alloc, 1)?;
        let shelves = self.shelves.as_mut_slice();
        let (reply, head) = move_session(shelves, own, session, version, made)?;
        let entry = Entry {
            caller: own.caller(),
            call: Call::Rebase {
                session,
                version,
                dropping,
            },
            head,
        };
        let block = own.seal(entry, pending);
        self.journal.push(block);
        Ok(reply)
    }

    /// Makes a file the next version, over the version that its writer knew. The compiler made this of it.
    ///
    /// # Errors
    ///
    /// Want of memory, here or in the compiler.
    pub fn publish(
        &mut self,
        own: &mut Own,
        base: u64,
        file: SharedFile,
        built: Result<Version, BuildFault>,
    ) -> Result<Reply, NoMemory>
        requires stands { StandsAfter (history_of self.old) own.old }
        requires built { IsBuilt file built }
        ensures shares { IfOk result (λ reply. Shares (Publish base file) self.old self.new own.old own.new reply) }
        ensures kept { OnErr result ((self.new ≡ self.old) × (own.new ≡ own.old)) }
    {
        make_room(&mut self.journal, self.present, 1)?;
        let pending = Reserved::with_capacity(self.alloc, 1)?;
        let reply = shelve_built(
            self.alloc,
            &mut self.shelves,
            &mut self.current,
            base,
            built,
        )?;
        let call = Call::Publish { base, file };
        let entry = noted(self.alloc, own.caller(), call, &reply.head);
        let block = own.seal(entry, pending);
        self.journal.push(block);
        Ok(reply)
    }
}
