//! The commands.

ghost use Rattle.std.specs.Prelude.{◌≡◌};
ghost use Rattle.pc_calls.specs.CommandLine.{command_of};

use pc_names::same_word;

/// What a line asks for, which its first word tells.
#[derive(Clone, Copy, Debug, PartialEq, Eq)]
pub enum Command {
    Open,
    Show,
    Choose,
    Retract,
    Bound,
    Unbound,
    Rebase,
    Close,
    Publish,
    Reclaim,
    Versions,
    Leave,
}

impl Command {
    /// The command that a word is, if it is one.
    #[tactic(auto, unfolding(crate::specs::CommandLine::command_of))]
    pub fn read(word: &[u8]) -> Option<Command>
        ensures { result ≡ command_of word.now }
    {
        if same_word(word, "open") {
            Some(Command::Open)
        } else if same_word(word, "show") {
            Some(Command::Show)
        } else if same_word(word, "choose") {
            Some(Command::Choose)
        } else if same_word(word, "retract") {
            Some(Command::Retract)
        } else if same_word(word, "bound") {
            Some(Command::Bound)
        } else if same_word(word, "unbound") {
            Some(Command::Unbound)
        } else if same_word(word, "rebase") {
            Some(Command::Rebase)
        } else if same_word(word, "close") {
            Some(Command::Close)
        } else if same_word(word, "publish") {
            Some(Command::Publish)
        } else if same_word(word, "reclaim") {
            Some(Command::Reclaim)
        } else if same_word(word, "versions") {
            Some(Command::Versions)
        } else if same_word(word, "leave") {
            Some(Command::Leave)
        } else {
            None
        }
    }
}
