//! Hearing what is said next.

ghost use Rattle.std.specs.Prelude.{◌≡◌, ◌≤◌, ◌<◌, ◌+◌, false, [], None, Err, OnOk, IfOk, IfSome, IsTrue};
ghost use Rattle.std.specs.Io.KnownBytes.{IsAtEnd};
ghost use Rattle.pc_base.specs.Rose.{Rose};
ghost use Rattle.pc_script.specs.Present.{ArePresent, state_at};
ghost use Rattle.pc_script.specs.Spoken.{IsSpoken};
ghost use Rattle.pc_script.specs.Turns.{Hears, turn_after};
ghost use Rattle.pc_script.specs.declared.script_end.ScriptEnd.TheVariants.{ReadFault};

use crate::callers::Callers;
use crate::item::Request;
use crate::script_end::ScriptEnd;
use crate::speaking::hear;
use crate::turn::{SaidNext, Turn};
use pc_conn::{Body, read_body};
use pc_io::{Lines, Source};
use std::alloc::Global;

/// What the next line says, with the lines of a text where it announces one. `None` where no line is left.
pub fn hear_next<S: Source>(
    alloc: Global,
    callers: &Callers,
    lines: &mut Lines,
    source: &mut S,
) -> Result<Option<SaidNext>, ScriptEnd>
    requires present { ArePresent callers.now.book callers.now.present.items }
    requires going { lines.old.ended ≡ false }
    requires sound { lines.old.fault ≡ None }
    ensures hears { Hears (state_at callers.now) result
        (record { cutter = lines.old; rest = S.rest source.old })
        (record { cutter = lines.new; rest = S.rest source.new }) }
    ensures spoken { IfOk result (λ next. IfSome next (λ n. IsSpoken (state_at callers.now) n.said)) }
    ensures failed { result ≡ Err ReadFault → Rose (S.read_faults source.old) (S.read_faults source.new) }
    ensures sound { OnOk result (lines.new.fault ≡ None) }
    ensures at_end { IsTrue lines.new.ended → IsAtEnd (S.rest source.new) }
    ensures none_kept { OnOk result (IsTrue lines.new.ended → lines.new.kept ≡ []) }
    ensures within { lines.new.given ≤ lines.new.total_limit }
    ensures counted { S.read_faults source.old ≤ S.read_faults source.new }
    ensures aside { S.read_aside source.new ≡ S.read_aside source.old }
{
    let Some(line) = lines.next(source)? else {
        return Ok(None);
    };
    match hear(callers, &line) {
        Request::Said(said) => Ok(Some(SaidNext {
            said,
            turn: Turn::Going,
        })),
        Request::Publish(awaited) => {
            let body = read_body(alloc, lines, source, awaited.publish.lines)?;
            let turn = turn_after(&body);
            Ok(Some(SaidNext {
                said: awaited.with(body),
                turn,
            }))
        }
    }
}

/// Nothing comes after a text that the end cuts.
fn turn_after(body: &Body) -> Turn
    ensures { result ≡ turn_after body.now }
{
    match body {
        Body::Cut => Turn::Last,
        _ => Turn::Going,
    }
}
