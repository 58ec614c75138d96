//! A place among the words of a line.

ghost use Rattle.std.specs.Prelude.{◌≡◌, [], ◌∷◌, ◌+◌, MatchResult, MatchOption};
ghost use Rattle.pc_calls.specs.LineWords.{word_of};
ghost use Rattle.pc_calls.specs.CommandReader as spec;
ghost use Rattle.pc_calls.specs.CommandReader.{rest_of};
ghost use Rattle.pc_calls.specs.CommandLine as line;

use crate::bad_column::BadColumn;
use crate::command::Command;
use crate::kinds::{line_count, name};
use crate::line_words::first_word;
use crate::placed_word::PlacedWord;
use pc_names::{Name, read_int, read_unsigned};
use std::marker::Model;

/// Reads words from left to right. Contracts see it as the words that are left.
#[derive(Drop)]
pub struct WordsLeft<'a> {
    line: &'a [u8],
    /// The place up to which the line was read.
    place: u64,
}

impl<'a> Model for WordsLeft<'a> {
    ghost use Rattle.pc_calls.specs.CommandReader.{Rest, rest_of};

    ghost Value = { Rest };

    ghost view = { λ w. rest_of w.line.now w.place };
}

impl<'a> WordsLeft<'a> {
    ghost use Rattle.pc_calls.specs.CommandTold.{Reads};

    /// The words from a byte on are left.
    pub fn new(line: &'a [u8], from: u64) -> WordsLeft<'a>
        ensures { result ≡ rest_of line.now from }
    {
        WordsLeft { line, place: from }
    }

    /// The next word, which is then read.
    fn next(&mut self) -> Option<PlacedWord<'a>>
        ensures word { MatchOption result ((self.old.words ≡ []) × (self.new.words ≡ [])) (λ word. self.old.words ≡ word_of word ∷ self.new.words) }
        ensures length { self.new.line_length ≡ self.old.line_length }
    {
        let word = first_word(self.line, self.place)?;
        self.place = word.place + word.bytes.len() as u64;
        Some(word)
    }

    /// The next word, which has to be there.
    fn word(&mut self) -> Result<PlacedWord<'a>, BadColumn>
        ensures length { self.new.line_length ≡ self.old.line_length }
        ensures word { MatchResult result (λ word. self.old.words ≡ word_of word ∷ self.new.words)
            (λ column. (self.old.words ≡ []) × (column ≡ spec.missing self.old.line_length)) }
    {
        let missing = BadColumn {
            column: self.line.len() as u64 + 1,
        };
        self.next().ok_or(missing)
    }

    /// Reads a command.
    #[tactic(auto, unfolding(crate::specs::CommandReader::word_of_kind))]
    pub fn command(&mut self) -> Result<Command, BadColumn>
        ensures { Reads (spec.word_of_kind line.command_of self.old) result self.new }
    {
        let word = self.word()?;
        Command::read(word.bytes).ok_or(word.wrong())
    }

    /// Reads a number that isn't negative.
    #[tactic(auto, unfolding(crate::specs::CommandReader::word_of_kind))]
    pub fn unsigned(&mut self) -> Result<u64, BadColumn>
        ensures { Reads (line.unsigned self.old) result self.new }
    {
        let word = self.word()?;
        read_unsigned(word.bytes).ok_or(word.wrong())
    }

    /// Reads a number.
    #[tactic(auto, unfolding(crate::specs::CommandReader::word_of_kind))]
    pub fn number(&mut self) -> Result<i64, BadColumn>
        ensures { Reads (line.number self.old) result self.new }
    {
        let word = self.word()?;
        read_int(word.bytes).ok_or(word.wrong())
    }

    /// Reads a name.
    #[tactic(auto, unfolding(crate::specs::CommandReader::word_of_kind))]
    pub fn name(&mut self) -> Result<Name, BadColumn>
        ensures { Reads (line.name self.old) result self.new }
    {
        let word = self.word()?;
        name(word.bytes).ok_or(word.wrong())
    }

    /// Reads a number of lines.
    #[tactic(auto, unfolding(crate::specs::CommandReader::word_of_kind))]
    pub fn line_count(&mut self) -> Result<u64, BadColumn>
        ensures { Reads (line.line_count self.old) result self.new }
    {
        let word = self.word()?;
        line_count(word.bytes).ok_or(word.wrong())
    }

    /// Whether this word comes next, which is then read; no other word may.
    #[tactic(auto, unfolding(crate::specs::CommandReader::flag))]
    pub fn flag(&mut self, spelling: &str) -> Result<bool, BadColumn>
        ensures { Reads (spec.flag spelling.now self.old) result self.new }
    {
        match self.next() {
            None => Ok(false),
            Some(word) if word.bytes == spelling.as_bytes() => Ok(true),
            Some(word) => Err(word.wrong()),
        }
    }

    /// No word may come next.
    #[tactic(auto, unfolding(crate::specs::CommandReader::end))]
    pub fn end(&mut self) -> Result<(), BadColumn>
        ensures { Reads (spec.end self.old) result self.new }
    {
        match self.next() {
            None => Ok(()),
            Some(word) => Err(word.wrong()),
        }
    }
}
