//! Running a script.

ghost use Rattle.std.specs.Prelude.{◌≡◌, ◌≤◌, ◌++◌, [], OnOk};
ghost use Rattle.pc_io.specs.Ends.{ends};
ghost use Rattle.pc_calls.specs.History.{IsLegal};
ghost use Rattle.pc_book.specs.Book.{history_of};
ghost use Rattle.pc_script.specs.Present.{ArePresent, history_at, state_at};
ghost use Rattle.pc_script.specs.Script.{said_text};
ghost use Rattle.pc_script.specs.ScriptHistory.{said_entries};
ghost use Rattle.pc_script.specs.ScriptOutcome.{Leaves, LeavesJournal, LeavesLines};
ghost use Rattle.pc_script.specs.Spoken.{IsSpoken};
ghost use Rattle.pc_script.specs.Turns.{Writes};

use crate::callers::Callers;
use crate::hearing::hear_next;
use crate::item::Said;
use crate::script_end::ScriptEnd;
use crate::speaking::answer;
use crate::turn::Turn;
use pc_book::Journal;
use pc_io::{Lines, MOST_LINE_BYTES, Sink, Source, put_all};
use std::alloc::Global;

/// The most bytes of a script.
pub const MOST_SCRIPT_BYTES: u64 = 16_777_216;

/// Runs a script: each line is `CALLER COMMAND` and is answered before the next is read. At the end of the input the
/// callers leave.
pub fn run_script<S: Source, K: Sink>(alloc: Global, source: &mut S, sink: &mut K) -> ScriptEnd
    ensures left { let seen = ends S.rest S.read_faults K.written K.write_faults in
        Leaves result (seen source.old sink.old) (seen source.new sink.new) }
    ensures counted_reads { S.read_faults source.old ≤ S.read_faults source.new }
    ensures counted_writes { K.write_faults sink.old ≤ K.write_faults sink.new }
    ensures read_aside { S.read_aside source.new ≡ S.read_aside source.old }
    ensures write_aside { K.write_aside sink.new ≡ K.write_aside sink.old }
{
    match answer_all(alloc, source, sink).0 {
        Ok(()) => ScriptEnd::Ended,
        Err(end) => end,
    }
}

/// Answers line after line up to the end, when those leave that are still present: how it ended, and the journal.
fn answer_all<S: Source, K: Sink>(
    alloc: Global,
    source: &mut S,
    sink: &mut K,
) -> (Result<(), ScriptEnd>, Journal)
    ensures left { let seen = ends S.rest S.read_faults K.written K.write_faults in
        LeavesJournal (history_of result.1) result.0 (seen source.old sink.old) (seen source.new sink.new) }
    ensures legal { IsLegal (history_of result.1) }
    ensures counted_reads { S.read_faults source.old ≤ S.read_faults source.new }
    ensures counted_writes { K.write_faults sink.old ≤ K.write_faults sink.new }
    ensures read_aside { S.read_aside source.new ≡ S.read_aside source.old }
    ensures write_aside { K.write_aside sink.new ≡ K.write_aside sink.old }
{
    let mut callers = Callers::new(alloc);
    let answered = answer_lines(&mut callers, source, sink);
    (answered, callers.finish())
}

/// Answers line after line up to the end.
fn answer_lines<S: Source, K: Sink>(
    callers: &mut Callers,
    source: &mut S,
    sink: &mut K,
) -> Result<(), ScriptEnd>
    requires book { callers.old.book ≡ [] }
    requires nobody { callers.old.present.items ≡ [] }
    ensures left { let seen = ends S.rest S.read_faults K.written K.write_faults in
        LeavesLines (history_at callers.new) result (seen source.old sink.old) (seen source.new sink.new) }
    ensures present { ArePresent callers.new.book callers.new.present.items }
    ensures counted_reads { S.read_faults source.old ≤ S.read_faults source.new }
    ensures counted_writes { K.write_faults sink.old ≤ K.write_faults sink.new }
    ensures read_aside { S.read_aside source.new ≡ S.read_aside source.old }
    ensures write_aside { K.write_aside sink.new ≡ K.write_aside sink.old }
{
    let mut lines = Lines::new(callers.alloc, MOST_LINE_BYTES, MOST_SCRIPT_BYTES)?;
    while !lines.has_ended() {
        let Some(next) = hear_next(callers.alloc, callers, &mut lines, source)? else {
            return Ok(());
        };
        write_answer(callers, next.said, sink)?;
        match next.turn {
            Turn::Going => {}
            Turn::Last => return Ok(()),
        }
    }
    Ok(())
}

/// Answers what was said, in one go.
fn write_answer<K: Sink>(callers: &mut Callers, said: Said, sink: &mut K) -> Result<(), ScriptEnd>
    requires present { ArePresent callers.old.book callers.old.present.items }
    requires spoken { IsSpoken (state_at callers.old) said }
    ensures writes { Writes (said_text (state_at callers.old) said) result (K.written sink.old) (K.written sink.new) (K.write_faults sink.old) (K.write_faults sink.new) }
    ensures present { ArePresent callers.new.book callers.new.present.items }
    ensures recorded { OnOk result (history_at callers.new ≡ history_at callers.old ++ said_entries (state_at callers.old) said) }
    ensures counted { K.write_faults sink.old ≤ K.write_faults sink.new }
    ensures aside { K.write_aside sink.new ≡ K.write_aside sink.old }
{
    let text = answer(callers, said)?;
    put_all(sink, text.as_slice())?;
    Ok(())
}
