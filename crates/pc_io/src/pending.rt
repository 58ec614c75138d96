//! The bytes that were read of a source and not yet given.

ghost use Rattle.std.specs.Prelude.{◌≡◌, ◌+◌, ◌<◌, ◌≤◌, ◌↔◌, ◌++◌, [], false, nat_eq, length, take, drop, IfNone, IfSome, IfOk, OnOk, OnErr, IsTrue};
ghost use Rattle.std.specs.Io.KnownBytes.{IsAtEnd, prepend_known};
ghost use Rattle.pc_base.specs.Rose.{Rose};
ghost use Rattle.pc_base.specs.Lines.{first_line};

use crate::failed::Failed;
use crate::source::Source;
use pc_base::{Line, NoMemory, first_line_width};
use std::alloc::Global;
use std::marker::Model;
use std::mem;

/// How many bytes a read asks for.
const BLOCK: usize = 65_536;

/// The part of the line that is being read, and the bytes of the last block after it.
#[derive(Debug, Drop)]
pub struct Pending {
    part: Line,
    block: Vec<u8>,
    start: usize,
    end: usize,
    ended: bool,
}

impl Model for Pending {
    ghost use Rattle.std.specs.Prelude.{◌<◌, ◌≤◌, length};
    ghost use Rattle.std.specs.List.{slice_range};
    ghost use Rattle.pc_io.specs.Held.{Held};

    ghost Value = { Held };

    ghost view = { λ p. record { part = p.part; ahead = slice_range p.block.items p.start p.end; ended = p.ended } };

    ghost invariant = { λ p. (p.start ≤ p.end) × (p.end ≤ length p.block.items) × (0 < length p.block.items) };
}

impl Pending {
    /// Nothing was read yet.
    pub fn new(alloc: Global) -> Result<Pending, NoMemory>
        ensures { IfOk result (λ p. p ≡ record { part = []; ahead = []; ended = false }) }
    {
        Ok(Pending {
            part: Line::new(alloc),
            block: vec![in alloc; 0; BLOCK]?,
            start: 0,
            end: 0,
            ended: false,
        })
    }

    pub fn part_len(&self) -> usize
        ensures { result ≡ length self.now.part }
    {
        self.part.len()
    }

    pub fn has_ended(&self) -> bool
        ensures { result ≡ self.now.ended }
    {
        self.ended
    }

    pub fn is_ahead_empty(&self) -> bool
        ensures { IsTrue result ↔ (self.now.ahead ≡ []) }
    {
        self.start == self.end
    }

    /// How many bytes ahead come before a line feed, or how many there are.
    pub fn line_bytes_ahead(&self) -> usize
        ensures { result ≡ length (first_line self.now.ahead) }
    {
        first_line_width(&self.block[self.start..self.end])
    }

    /// Moves bytes from ahead to the part. Want of memory leaves all as it was.
    pub fn keep(&mut self, count: usize) -> Result<(), NoMemory>
        requires { count ≤ length self.old.ahead }
        ensures ok { OnOk result (self.new ≡ record self.old {
          part = self.old.part ++ take count self.old.ahead;
          ahead = drop count self.old.ahead;
        }) }
        ensures err { OnErr result (self.new ≡ self.old) }
    {
        let end = self.start + count;
        self.part.extend_from_slice(&self.block[self.start..end])?;
        self.start = end;
        Ok(())
    }

    /// Gives the part as a line, and leaves out the line feed ahead.
    pub fn give_line(&mut self, alloc: Global) -> Line
        requires { 0 < length self.old.ahead }
        ensures line { result ≡ self.old.part }
        ensures left { self.new ≡ record self.old { part = []; ahead = drop 1 self.old.ahead } }
    {
        self.start += 1;
        mem::replace(&mut self.part, Line::new(alloc))
    }

    /// Gives the part as the last line, if it has a byte.
    pub fn give_last(&mut self, alloc: Global) -> Option<Line>
        ensures none { IfNone result (self.old.part ≡ []) }
        ensures line { IfSome result (λ line. (line ≡ self.old.part) × (0 < length line)) }
        ensures left { self.new ≡ record self.old { part = [] } }
    {
        if self.part.is_empty() {
            return None;
        }
        Some(mem::replace(&mut self.part, Line::new(alloc)))
    }

    /// Reads the next block.
    pub fn fill<S: Source>(&mut self, source: &mut S) -> Result<(), Failed>
        requires { self.old.ahead ≡ [] }
        ensures bytes { S.rest source.old ≡ prepend_known self.new.ahead (S.rest source.new) }
        ensures part { self.new.part ≡ self.old.part }
        ensures ended { OnOk result (self.new.ended ≡ nat_eq (length self.new.ahead) 0) }
        ensures end { OnOk result (IsTrue self.new.ended → IsAtEnd (S.rest source.new)) }

        ensures failed { OnErr result (Rose (S.read_faults source.old) (S.read_faults source.new)) }
        ensures kept { OnErr result (self.new ≡ self.old) }

        ensures faultless { OnOk result (S.read_faults source.new ≡ S.read_faults source.old) }
        ensures counted { S.read_faults source.old ≤ S.read_faults source.new }
        ensures aside { S.read_aside source.new ≡ S.read_aside source.old }
    {
        let count = source.read(self.block.as_mut_slice())?;
        self.start = 0;
        self.end = count;
        self.ended = count == 0;
        Ok(())
    }
}
