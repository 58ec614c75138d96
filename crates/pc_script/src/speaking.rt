//! What a line says to the callers, and what it is answered.

ghost use Rattle.std.specs.Prelude.{◌≡◌, ◌<◌, ◌≤◌, ◌+◌, ◌^◌, ◌++◌, length, IfOk, OnOk};
ghost use Rattle.pc_calls.specs.LineWords.{end_of, word_of};
ghost use Rattle.pc_conn.specs.Answers.{answer_text};
ghost use Rattle.pc_calls.specs.Heads.{reply};
ghost use Rattle.pc_script.specs.Request.{bad_at, caller_of, requested};
ghost use Rattle.pc_script.specs.Script.{caller_line, entered, said_text};
ghost use Rattle.pc_script.specs.Present.{ArePresent, history_at, state_at};
ghost use Rattle.pc_script.specs.ScriptHistory.{item_entries, said_entries};
ghost use Rattle.pc_script.specs.Spoken.{IsSpoken, IsSpokenBy, Speaks};

use crate::callers::Callers;
use crate::item::{Request, Said};
use pc_base::{Line, NoMemory, Text};
use pc_calls::{PlacedWord, first_word, push_reply};
use pc_conn::{Item, hear as hear_words, push_bad, push_fault};
use pc_names::read_unsigned;

/// The byte after a word.
fn end_of(word: &PlacedWord<'_>) -> u64
    requires { end_of (word_of word.now) < 2 ^ 64 }
    ensures { result ≡ end_of (word_of word.now) }
{
    word.place + word.bytes.len() as u64
}

/// A line whose first wrong word begins at a column.
fn bad_at(caller: u64, column: u64) -> Request
    ensures { result ≡ bad_at caller column }
{
    Request::Said(Said {
        caller,
        item: Item::Bad { column },
    })
}

/// The caller that a word names, if it may speak.
#[tactic(auto, unfolding(crate::specs::Request::caller_of))]
fn caller_of(callers: &Callers, word: &[u8]) -> Option<u64>
    requires { ArePresent callers.now.book callers.now.present.items }
    ensures { result ≡ caller_of (state_at callers.now) word.now }
{
    match read_unsigned(word) {
        Some(caller) if callers.may_speak(caller) => Some(caller),
        _ => None,
    }
}

/// What a line says.
#[tactic(auto, unfolding(crate::specs::Request::requested))]
fn heard(callers: &Callers, line: &Line) -> Request
    requires { ArePresent callers.now.book callers.now.present.items }
    ensures { result ≡ requested (state_at callers.now) line.now }
{
    let Some(word) = first_word(line.as_slice(), 0) else {
        return bad_at(0, line.as_slice().len() as u64 + 1);
    };
    match caller_of(callers, word.bytes) {
        Some(caller) => Request::of(caller, hear_words(line, end_of(&word))),
        None => bad_at(0, word.wrong().column),
    }
}

/// What a line says, which is a call of a caller that may speak or no call.
#[tactic(auto, using(crate::proofs::ScriptTurns::request_speaks))]
pub fn hear(callers: &Callers, line: &Line) -> Request
    requires { ArePresent callers.now.book callers.now.present.items }
    ensures requested { result ≡ requested (state_at callers.now) line.now }
    ensures spoken { IsSpokenBy (state_at callers.now) result }
{
    heard(callers, line)
}

/// The line before an answer.
fn push_caller(text: &mut Text, caller: u64) -> Result<(), NoMemory>
    ensures { OnOk result (text.new ≡ text.old ++ caller_line caller) }
{
    text.extend_from_slice(b"caller ")?;
    text.push_unsigned(caller)?;
    text.push(b'\n')
}

/// The answer to what was said, whose calls are made.
pub fn answer(callers: &mut Callers, said: Said) -> Result<Text, NoMemory>
    requires present { ArePresent callers.old.book callers.old.present.items }
    requires spoken { IsSpoken (state_at callers.old) said }
    ensures text { IfOk result (λ text. text ≡ said_text (state_at callers.old) said) }
    ensures present { ArePresent callers.new.book callers.new.present.items }
    ensures recorded { OnOk result (history_at callers.new ≡ history_at callers.old ++ said_entries (state_at callers.old) said) }
{
    let mut text = Text::new(callers.alloc);
    push_caller(&mut text, said.caller)?;
    push_answer(&mut text, callers, said.caller, said.item)?;
    Ok(text)
}

/// Puts the answer to a caller's item at the end of a text.
fn push_answer(
    text: &mut Text,
    callers: &mut Callers,
    caller: u64,
    item: Item,
) -> Result<(), NoMemory>
    requires present { ArePresent callers.old.book callers.old.present.items }
    requires speaks { Speaks (state_at callers.old) caller item }
    ensures text { OnOk result (text.new ≡ text.old ++ answer_text (λ call. reply caller call (entered (state_at callers.old) caller)) item) }
    ensures present { ArePresent callers.new.book callers.new.present.items }
    ensures recorded { OnOk result (history_at callers.new ≡ history_at callers.old ++ item_entries (state_at callers.old) caller item) }
{
    match item {
        Item::Call(call) => push_reply(text, &callers.call(caller, call)?),
        Item::Bad { column } => push_bad(text, column),
        Item::Fault { line, kind } => push_fault(text, line, kind),
    }
}
