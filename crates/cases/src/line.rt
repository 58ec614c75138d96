//! The lines of a file of cases.

use pc_names::read_int;

/// Bytes of an input or an output.
#[derive(Clone, Copy)]
pub struct Piece<'a> {
    pub bytes: &'a [u8],
    /// How often they stand, one after the other.
    pub times: u64,
    /// Whether a line feed follows.
    pub ends_line: bool,
}

/// What a line says.
#[derive(Clone, Copy)]
pub enum Line<'a> {
    /// A comment, or nothing.
    Nothing,
    /// `case NAME`: a case begins.
    Case(&'a [u8]),
    /// `words WORD ..`: the words of the command line.
    Words(&'a [u8]),
    /// `reads N`: the most bytes of a read.
    Reads(u64),
    /// `read-fails N`: this read fails, counted from 1.
    ReadFails(u64),
    /// `write-fails N`: this write fails, counted from 1.
    WriteFails(u64),
    /// `room N`: the most bytes that the output may have.
    Room(u64),
    /// `> ..`: the next piece of the input.
    Input(Piece<'a>),
    /// `< ..`: the next piece of the output that is wanted.
    Output(Piece<'a>),
    /// `status N`: the status that is wanted; the case ends.
    Status(u64),
}

impl<'a> Line<'a> {
    /// What a line says, without its line feed; none where it says nothing that is known.
    pub fn read(line: &'a [u8]) -> Option<Line<'a>> {
        match line {
            [] | [b'#', ..] => Some(Line::Nothing),
            [b'>', piece @ ..] => Some(Line::Input(Piece::read(piece)?)),
            [b'<', piece @ ..] => Some(Line::Output(Piece::read(piece)?)),
            _ => Line::of_words(line),
        }
    }

    /// What a line says that begins by a word.
    fn of_words(line: &'a [u8]) -> Option<Line<'a>> {
        let (word, rest) = split_word(line);
        if word == b"case".as_slice() {
            return Some(Line::Case(rest));
        }
        if word == b"words".as_slice() {
            return Some(Line::Words(rest));
        }
        Line::of_number(word, u64::try_from(read_int(rest)?).ok()?)
    }

    /// What a line says that is a word and a number.
    fn of_number(word: &[u8], number: u64) -> Option<Line<'a>> {
        if word == b"status".as_slice() {
            Some(Line::Status(number))
        } else if word == b"reads".as_slice() {
            Some(Line::Reads(number))
        } else if word == b"read-fails".as_slice() {
            Some(Line::ReadFails(number))
        } else if word == b"write-fails".as_slice() {
            Some(Line::WriteFails(number))
        } else if word == b"room".as_slice() {
            Some(Line::Room(number))
        } else {
            None
        }
    }
}

impl<'a> Piece<'a> {
    /// The piece that follows `>` or `<`: ` TEXT` with a line feed, `. TEXT` without one, or `* TIMES TEXT`, which
    /// stands so often without line feeds. Nothing at all is a line feed.
    fn read(text: &'a [u8]) -> Option<Piece<'a>> {
        match text {
            [] => Some(Piece {
                bytes: text,
                times: 1,
                ends_line: true,
            }),
            [b' ', bytes @ ..] => Some(Piece {
                bytes,
                times: 1,
                ends_line: true,
            }),
            [b'.', b' ', bytes @ ..] => Some(Piece {
                bytes,
                times: 1,
                ends_line: false,
            }),
            [b'*', b' ', repeated @ ..] => Piece::repeated(repeated),
            _ => None,
        }
    }

    fn repeated(text: &'a [u8]) -> Option<Piece<'a>> {
        let (times, bytes) = split_word(text);
        Some(Piece {
            bytes,
            times: u64::try_from(read_int(times)?).ok()?,
            ends_line: false,
        })
    }
}

/// What stands before the first space, and what stands after it.
fn split_word<'a>(line: &'a [u8]) -> (&'a [u8], &'a [u8]) {
    match line.iter().position(|byte| *byte == b' ') {
        Some(place) => (&line[..place], &line[place + 1..]),
        None => (line, &line[line.len()..]),
    }
}
