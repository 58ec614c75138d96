//! A case: what the program is run on, and what is wanted of it.

use crate::line::{Line, Piece};
use anyhow::{Result, bail};
use std::alloc::{AllocError, Global};

/// One run of the program and how it has to end.
#[derive(Drop)]
pub struct Case {
    /// What the case shows.
    pub name: Vec<u8>,
    /// The words of the command line.
    pub words: Vec<Vec<u8>>,
    /// All bytes of the input.
    pub input: Vec<u8>,
    /// The most bytes of a read.
    pub reads: usize,
    /// The numbers of the reads that fail, counted from 0.
    pub failing_reads: Vec<u64>,
    /// The numbers of the writes that fail, counted from 0.
    pub failing_writes: Vec<u64>,
    /// The most bytes that the output may have, where it is limited.
    pub room: Option<usize>,
    /// The output that is wanted, all of it.
    pub output: Vec<u8>,
    /// The exit status that is wanted.
    pub status: u8,
}

impl Case {
    /// A case of this name with no words, no input and no output, whose ends never fail.
    pub fn new(alloc: Global, name: Vec<u8>) -> Case {
        Case {
            name,
            words: Vec::new(alloc),
            input: Vec::new(alloc),
            reads: usize::MAX,
            failing_reads: Vec::new(alloc),
            failing_writes: Vec::new(alloc),
            room: None,
            output: Vec::new(alloc),
            status: 0,
        }
    }

    /// Adds what a line says to the case.
    pub fn take_line(&mut self, alloc: Global, line: Line<'_>) -> Result<()> {
        match line {
            Line::Nothing => {}
            Line::Words(words) => self.words = words_of(alloc, words)?,
            Line::Reads(most) => self.reads = usize::try_from(most)?,
            Line::ReadFails(number) => self.failing_reads.push(from_zero(number)?)?,
            Line::WriteFails(number) => self.failing_writes.push(from_zero(number)?)?,
            Line::Room(bytes) => self.room = Some(usize::try_from(bytes)?),
            Line::Input(piece) => push_piece(&mut self.input, &piece)?,
            Line::Output(piece) => push_piece(&mut self.output, &piece)?,
            Line::Case(_) | Line::Status(_) => bail!("the case before has no status"),
        }
        Ok(())
    }
}

/// The words of a line, parted by single spaces.
fn words_of(alloc: Global, line: &[u8]) -> Result<Vec<Vec<u8>>, AllocError> {
    let mut words = Vec::new(alloc);
    for word in line.split(|byte| *byte == b' ') {
        words.push(word.to_vec(alloc)?)?;
    }
    Ok(words)
}

/// The number counted from 0 of what has this one counted from 1.
fn from_zero(number: u64) -> Result<u64> {
    match number.checked_sub(1) {
        Some(number) => Ok(number),
        None => bail!("reads and writes are counted from 1"),
    }
}

/// Puts a piece at the end of some bytes.
fn push_piece(bytes: &mut Vec<u8>, piece: &Piece<'_>) -> Result<(), AllocError> {
    for _ in 0..piece.times {
        bytes.extend_from_slice(piece.bytes)?;
    }
    if piece.ends_line {
        bytes.push(b'\n')?;
    }
    Ok(())
}
