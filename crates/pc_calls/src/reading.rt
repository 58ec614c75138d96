//! Reading command lines.

ghost use Rattle.std.specs.Prelude.{◌≡◌, Ok, Some, None, IfOk, MatchResult};
ghost use Rattle.pc_calls.specs.declared.line_call.LineCall.{LineCall};
ghost use Rattle.pc_calls.specs.LineWords.{words_from};
ghost use Rattle.pc_calls.specs.CommandTold.{Reads};
ghost use Rattle.pc_calls.specs.CommandLine.{arguments, command_line, line_call};
ghost use Rattle.pc_calls.specs.CommandTable.{bad_column};
ghost use Rattle.pc_calls.specs.CallWords.{spellings, call_words, IsSayable};

use crate::bad_column::BadColumn;
use crate::call::Call;
use crate::command::Command;
use crate::line_call::LineCall;
use crate::words_left::WordsLeft;
use pc_base::Line;

/// What the words of a line say from a byte on, or the column of the first word that is wrong or missing. No words
/// are left of a line from past its end on.
pub fn read_call(line: &Line, from: u64) -> Result<LineCall, BadColumn>
    ensures exact { result ≡ line_call line.now from }

    // A call is read exactly from the words that say it.
    ensures said { IfOk result (λ call. IsSayable call × (spellings (words_from line.now from) ≡ call_words call)) }
    ensures only { (call : LineCall) → IsSayable call → spellings (words_from line.now from) ≡ call_words call → result ≡ Ok call }

    // Else the column is that of the first word that is wrong or missing.
    ensures wrong { MatchResult result (λ call. bad_column line.now from ≡ None) (λ column. bad_column line.now from ≡ Some column) }
{
    line_call(line.as_slice(), from)
}

fn line_call(line: &[u8], from: u64) -> Result<LineCall, BadColumn>
    ensures { result ≡ line_call line.now from }
{
    command_line(&mut WordsLeft::new(line, from))
}

#[tactic(auto, unfolding(crate::specs::CommandLine::command_line))]
fn command_line(words: &mut WordsLeft<'_>) -> Result<LineCall, BadColumn>
    ensures { Reads (command_line words.old) result words.new }
{
    let command = words.command()?;
    let said = arguments(words, command)?;
    words.end()?;
    Ok(said)
}

/// The words that follow a command.
#[tactic(auto, unfolding(crate::specs::CommandLine::arguments))]
fn arguments(words: &mut WordsLeft<'_>, command: Command) -> Result<LineCall, BadColumn>
    ensures { Reads (arguments command words.old) result words.new }
{
    match command {
        Command::Open => Ok(LineCall::Whole(Call::Open)),
        Command::Show => show(words),
        Command::Choose => choose(words),
        Command::Retract => retract(words),
        Command::Bound => bound(words),
        Command::Unbound => unbound(words),
        Command::Rebase => rebase(words),
        Command::Close => close(words),
        Command::Publish => publish(words),
        Command::Reclaim => reclaim(words),
        Command::Versions => Ok(LineCall::Whole(Call::Versions)),
        Command::Leave => Ok(LineCall::Whole(Call::Leave)),
    }
}

/// `show S`, after its first word.
#[tactic(auto, unfolding(crate::specs::CommandLine::arguments))]
fn show(words: &mut WordsLeft<'_>) -> Result<LineCall, BadColumn>
    ensures { Reads (arguments Command.Show words.old) result words.new }
{
    let session = words.unsigned()?;
    Ok(LineCall::Whole(Call::Show { session }))
}

/// `choose S VAR VAL`, after its first word.
#[tactic(auto, unfolding(crate::specs::CommandLine::arguments))]
fn choose(words: &mut WordsLeft<'_>) -> Result<LineCall, BadColumn>
    ensures { Reads (arguments Command.Choose words.old) result words.new }
{
    let session = words.unsigned()?;
    let variable = words.name()?;
    let value = words.name()?;
    Ok(LineCall::Whole(Call::Choose {
        session,
        variable,
        value,
    }))
}

/// `retract S VAR`, after its first word.
#[tactic(auto, unfolding(crate::specs::CommandLine::arguments))]
fn retract(words: &mut WordsLeft<'_>) -> Result<LineCall, BadColumn>
    ensures { Reads (arguments Command.Retract words.old) result words.new }
{
    let session = words.unsigned()?;
    let variable = words.name()?;
    Ok(LineCall::Whole(Call::Retract { session, variable }))
}

/// `bound S COST N`, after its first word.
#[tactic(auto, unfolding(crate::specs::CommandLine::arguments))]
fn bound(words: &mut WordsLeft<'_>) -> Result<LineCall, BadColumn>
    ensures { Reads (arguments Command.Bound words.old) result words.new }
{
    let session = words.unsigned()?;
    let cost = words.name()?;
    let most = words.number()?;
    Ok(LineCall::Whole(Call::Bound {
        session,
        cost,
        most,
    }))
}

/// `unbound S COST`, after its first word.
#[tactic(auto, unfolding(crate::specs::CommandLine::arguments))]
fn unbound(words: &mut WordsLeft<'_>) -> Result<LineCall, BadColumn>
    ensures { Reads (arguments Command.Unbound words.old) result words.new }
{
    let session = words.unsigned()?;
    let cost = words.name()?;
    Ok(LineCall::Whole(Call::Unbound { session, cost }))
}

/// `rebase S V` or `rebase S V dropping`, after its first word.
#[tactic(auto, unfolding(crate::specs::CommandLine::arguments))]
fn rebase(words: &mut WordsLeft<'_>) -> Result<LineCall, BadColumn>
    ensures { Reads (arguments Command.Rebase words.old) result words.new }
{
    let session = words.unsigned()?;
    let version = words.unsigned()?;
    let dropping = words.flag("dropping")?;
    Ok(LineCall::Whole(Call::Rebase {
        session,
        version,
        dropping,
    }))
}

/// `close S`, after its first word.
#[tactic(auto, unfolding(crate::specs::CommandLine::arguments))]
fn close(words: &mut WordsLeft<'_>) -> Result<LineCall, BadColumn>
    ensures { Reads (arguments Command.Close words.old) result words.new }
{
    let session = words.unsigned()?;
    Ok(LineCall::Whole(Call::Close { session }))
}

/// `publish BASE LINES`, after its first word.
#[tactic(auto, unfolding(crate::specs::CommandLine::arguments))]
fn publish(words: &mut WordsLeft<'_>) -> Result<LineCall, BadColumn>
    ensures { Reads (arguments Command.Publish words.old) result words.new }
{
    let base = words.unsigned()?;
    let lines = words.line_count()?;
    Ok(LineCall::PublishHead { base, lines })
}

/// `reclaim V`, after its first word.
#[tactic(auto, unfolding(crate::specs::CommandLine::arguments))]
fn reclaim(words: &mut WordsLeft<'_>) -> Result<LineCall, BadColumn>
    ensures { Reads (arguments Command.Reclaim words.old) result words.new }
{
    let version = words.unsigned()?;
    Ok(LineCall::Whole(Call::Reclaim { version }))
}
