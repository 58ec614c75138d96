//! The callers of a script, over the book.

ghost use Rattle.std.specs.Prelude.{◌≡◌, ◌<◌, ◌&&◌, ◌++◌, ℕ, nat_le, [], length, position, true, IfOk, OnOk};
ghost use Rattle.pc_calls.specs.declared.call.Call.TheVariants.{Leave};
ghost use Rattle.pc_calls.specs.History.{IsLegal};
ghost use Rattle.pc_book.specs.Book.{history_of};
ghost use Rattle.pc_script.specs.Request.{may_speak};
ghost use Rattle.pc_script.specs.Present.{ArePresent, AreReady, IsMadeBy, IsRecorded, IsSeated, IsSettledAt, has_number, history_at, state_at};
ghost use Rattle.pc_script.specs.Spoken.{IsNoEnter, IsStaying};
ghost use Rattle.pc_script.specs.ScriptHistory.{entering, with_leaves};

use crate::calling::make_call;
use pc_base::NoMemory;
use pc_book::{Book, Journal, Own};
use pc_calls::{Call, Reply};
use std::alloc::Global;

/// The most callers of a script. They are numbered from 1 on.
pub const MOST_CALLERS: u64 = 64;

/// The book, and the own parts of the callers that have entered and not left, in the order of their numbers.
#[derive(Debug)]
pub struct Callers {
    pub alloc: Global,
    pub book: Book,
    pub present: Vec<Own>,
}

/// Whether a number is one of a script's callers.
fn is_number(caller: u64) -> bool
    ensures { result ≡ (nat_le 1 caller && nat_le caller MOST_CALLERS) }
{
    (1..=MOST_CALLERS).contains(&caller)
}

/// Where a caller's part stands.
fn place(present: &[Own], caller: u64) -> Option<usize>
    ensures { result ≡ position (has_number caller) present.now }
{
    present.iter().position(|own| own.caller() == caller)
}

impl Callers {
    /// Nobody has entered.
    pub fn new(alloc: Global) -> Callers
        ensures book { result.book ≡ [] }
        ensures present { result.present.items ≡ [] }
    {
        Callers {
            alloc,
            book: Book::new(alloc),
            present: Vec::new(alloc),
        }
    }

    /// Whether a number is that of a caller that is present, or of the next to enter.
    pub fn may_speak(&self, caller: u64) -> bool
        requires { ArePresent self.now.book self.now.present.items }
        ensures { result ≡ may_speak (state_at self.now) caller }
    {
        is_number(caller)
            && (caller - 1 == self.book.entered()
                || place(self.present.as_slice(), caller).is_some())
    }

    /// Where the part of a caller stands that may speak. It enters, unless it has before.
    fn seat(&mut self, caller: u64) -> Result<usize, NoMemory>
        requires present { ArePresent self.old.book self.old.present.items }
        requires may { may_speak (state_at self.old) caller ≡ true }
        ensures present { ArePresent self.new.book self.new.present.items }
        ensures seated { IfOk result (λ place. IsSeated caller place self.new.present.items) }
        ensures entered { OnOk result (history_at self.new ≡ history_at self.old ++ entering (state_at self.old) caller) }
    {
        if let Some(place) = place(self.present.as_slice(), caller) {
            return Ok(place);
        }
        self.present.reserve(1)?;
        let place = self.present.as_slice().len();
        let own = self.book.enter()?;
        self.present.push_reserved(own);
        Ok(place)
    }

    /// The caller at a place leaves, though its entries may wait and no other's do.
    fn let_go(&mut self, place: usize) -> Reply
        requires ready { AreReady place self.old.book self.old.present.items }
        ensures present { ArePresent self.new.book self.new.present.items }
        ensures left { IsSettledAt place self.old.present.items → (caller : ℕ) → IsSeated caller place self.old.present.items → IsRecorded caller Leave self.old.book self.new.book result }
    {
        let own = self.present.remove(place);
        self.book.leave(own)
    }

    /// The caller at a place makes a call and stays. Where memory is wanted the script ends, and this caller leaves at once.
    fn make(&mut self, place: usize, call: Call) -> Result<Reply, NoMemory>
        requires present { ArePresent self.old.book self.old.present.items }
        requires place { place < length self.old.present.items }
        requires staying { IsStaying call }
        ensures present { ArePresent self.new.book self.new.present.items }
        ensures made { IfOk result (λ reply. (caller : ℕ) → IsSeated caller place self.old.present.items → IsRecorded caller call self.old.book self.new.book reply) }
    {
        let made = make_call(self.alloc, &mut self.book, &mut self.present[place], call);
        if made.is_err() {
            self.let_go(place);
        }
        made
    }

    /// A caller makes a call, after its enter where it hasn't entered.
    pub fn call(&mut self, caller: u64, call: Call) -> Result<Reply, NoMemory>
        requires present { ArePresent self.old.book self.old.present.items }
        requires may { may_speak (state_at self.old) caller ≡ true }
        requires call { IsNoEnter call }
        ensures present { ArePresent self.new.book self.new.present.items }
        ensures made { IfOk result (IsMadeBy caller call self.old.book self.new.book) }
    {
        let place = self.seat(caller)?;
        match call {
            Call::Leave => Ok(self.let_go(place)),
            call => self.make(place, call),
        }
    }

    /// All that are present leave, in the order of their numbers. The journal of all calls.
    pub fn finish(self) -> Journal
        requires { ArePresent self.book self.present.items }
        ensures history { history_of result ≡ with_leaves (history_at self) }
        ensures legal { IsLegal (history_of result) }
    {
        let Callers {
            alloc: _,
            mut book,
            present,
        } = self;
        for own in present {
            book.leave(own);
        }
        book.finish()
    }
}
