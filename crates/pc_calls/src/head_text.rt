//! The lines of an answer without a listing.

ghost use Rattle.std.specs.Prelude.{◌≡◌, [], ◌∷◌, ◌++◌, decimal, IfOk, OnOk};
ghost use Rattle.std.specs.List.{flat_map};
ghost use Rattle.pc_calls.specs.ReplyText as spec;

use crate::dropped::Dropped;
use crate::head::Head;
use crate::live::Live;
use crate::outcome::Outcome;
use pc_base::{NoMemory, Text};
use pc_diagram::Side;
use pc_names::Name;
use std::alloc::Global;

/// The lines of a head: `ok SESSION VERSION` or `no SESSION VERSION CODE WORDS`, and a line for each live version and
/// for each bound or choice that was dropped.
pub fn write_head(alloc: Global, head: &Head) -> Result<Text, NoMemory>
    ensures { IfOk result (λ text. text ≡ spec.head_text head.now) }
{
    let mut text = Text::new(alloc);
    push_head(&mut text, head)?;
    Ok(text)
}

/// Puts the lines of a head at the end of a text.
pub(crate) fn push_head(text: &mut Text, head: &Head) -> Result<(), NoMemory>
    ensures { OnOk result (text.new ≡ text.old ++ spec.head_text head.now) }
{
    push_first_line(text, head)?;
    push_live(text, head.live.as_slice())?;
    push_dropped(text, head.dropped.as_slice())
}

fn push_first_line(text: &mut Text, head: &Head) -> Result<(), NoMemory>
    ensures { OnOk result (text.new ≡ text.old ++ spec.head_line head.now) }
{
    text.extend_from_slice(answer_word(&head.outcome).as_bytes())?;
    push_number(text, head.session)?;
    push_number(text, head.version)?;
    text.extend_from_slice(refusal_name(&head.outcome).as_bytes())?;
    push_detail(text, &head.outcome)?;
    text.push(b'\n')
}

fn answer_word(outcome: &Outcome) -> &'static str
    ensures { result.now ≡ spec.answer_word outcome.now }
{
    match outcome {
        Outcome::Done => "ok",
        _ => "no",
    }
}

/// The code and the name of a refusal, after a space.
fn refusal_name(outcome: &Outcome) -> &'static str
    ensures { result.now ≡ spec.refusal_name outcome.now }
{
    match outcome {
        Outcome::Done => "",
        Outcome::NoSession => " 1 no-session",
        Outcome::NoVariable => " 2 no-variable",
        Outcome::NoValue => " 3 no-value",
        Outcome::NotListed => " 4 not-listed",
        Outcome::NotChosen => " 5 not-chosen",
        Outcome::NoCost => " 6 no-cost",
        Outcome::NotBounded => " 7 not-bounded",
        Outcome::TooTight { .. } => " 8 too-tight",
        Outcome::LabelLimit { .. } => " 9 label-limit",
        Outcome::NotLive { .. } => " 10 not-live",
        Outcome::SameVersion => " 11 same-version",
        Outcome::Lost { .. } => " 12 lost",
        Outcome::Conflict => " 13 conflict",
        Outcome::Stale { .. } => " 14 stale",
        Outcome::ShelvesFull => " 15 shelves-full",
        Outcome::NodeLimit { .. } => " 16 node-limit",
        Outcome::NoProduct => " 17 no-product",
        Outcome::IsCurrent => " 18 is-current",
        Outcome::Pinned { .. } => " 19 pinned",
        Outcome::SessionsFull => " 20 sessions-full",
        Outcome::NoVersion => " 21 no-version",
    }
}

/// What a refusal tells besides, each word after a space.
fn push_detail(text: &mut Text, outcome: &Outcome) -> Result<(), NoMemory>
    ensures { OnOk result (text.new ≡ text.old ++ spec.refusal_detail outcome.now) }
{
    match outcome {
        Outcome::TooTight { least } => {
            text.push(b' ')?;
            text.push_signed(*least)
        }
        Outcome::LabelLimit { side, layer } => {
            text.push(b' ')?;
            text.extend_from_slice(side_word(*side).as_bytes())?;
            push_number(text, *layer as u64)
        }
        Outcome::NodeLimit { rule, part } => {
            push_number(text, *rule as u64)?;
            push_number(text, *part as u64)
        }
        Outcome::Lost { name } => {
            text.push(b' ')?;
            text.extend_from_slice(name.as_bytes())
        }
        Outcome::NotLive { version } => push_number(text, *version),
        Outcome::Stale { current } => push_number(text, *current),
        Outcome::Pinned { pins } => push_number(text, *pins),
        _ => Ok(()),
    }
}

/// Puts a space and a number at the end.
fn push_number(text: &mut Text, number: u64) -> Result<(), NoMemory>
    ensures { OnOk result (text.new ≡ text.old ++ 32 ∷ decimal number) }
{
    text.push(b' ')?;
    text.push_unsigned(number)
}

fn side_word(side: Side) -> &'static str
    ensures { result.now ≡ spec.side_word side }
{
    match side {
        Side::Heads => "heads",
        Side::Tails => "tails",
    }
}

fn push_live(text: &mut Text, live: &[Live]) -> Result<(), NoMemory>
    ensures { OnOk result (text.new ≡ text.old ++ flat_map spec.live_line live.now) }
{
    for version in live {
        push_live_line(text, version)?;
    }
    Ok(())
}

fn push_live_line(text: &mut Text, live: &Live) -> Result<(), NoMemory>
    ensures { OnOk result (text.new ≡ text.old ++ spec.live_line live.now) }
{
    text.extend_from_slice(b"live")?;
    push_number(text, live.version)?;
    push_number(text, live.pins)?;
    text.push(b'\n')
}

fn push_dropped(text: &mut Text, dropped: &[Dropped]) -> Result<(), NoMemory>
    ensures { OnOk result (text.new ≡ text.old ++ flat_map spec.dropped_line dropped.now) }
{
    for item in dropped {
        push_dropped_line(text, item)?;
    }
    Ok(())
}

fn push_dropped_line(text: &mut Text, item: &Dropped) -> Result<(), NoMemory>
    ensures { OnOk result (text.new ≡ text.old ++ spec.dropped_line item.now) }
{
    match item {
        Dropped::Bound(cost) => push_name_line(text, "dropped bound ", cost),
        Dropped::Choice(variable) => push_name_line(text, "dropped choice ", variable),
    }
}

/// Puts words, a name and a line feed at the end.
fn push_name_line(text: &mut Text, words: &str, name: &Name) -> Result<(), NoMemory>
    ensures { OnOk result (text.new ≡ text.old ++ (words.now ++ name.now ++ 10 ∷ [])) }
{
    text.extend_from_slice(words.as_bytes())?;
    text.extend_from_slice(name.as_bytes())?;
    text.push(b'\n')
}
