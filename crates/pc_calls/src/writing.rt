//! Writing replies.

ghost use Rattle.std.specs.Prelude.{◌≡◌, ◌++◌, IfOk, OnOk};
ghost use Rattle.pc_calls.specs.ReplyText.{shown_text, reply_text};

use crate::head_text::push_head;
use crate::reply::{Reply, Shown};
use pc_base::{NoMemory, Text};
use pc_file::push_listing;
use std::alloc::Global;

/// The text of a reply: the lines of its head, those of its listing where it shows one, and the line `.`.
pub fn write_reply(alloc: Global, reply: &Reply) -> Result<Text, NoMemory>
    ensures { IfOk result (λ text. text ≡ reply_text reply.now) }
{
    let mut text = Text::new(alloc);
    push_reply(&mut text, reply)?;
    Ok(text)
}

/// Puts the text of a reply at the end of a text.
pub fn push_reply(text: &mut Text, reply: &Reply) -> Result<(), NoMemory>
    ensures { OnOk result (text.new ≡ text.old ++ reply_text reply.now) }
{
    push_head(text, &reply.head)?;
    push_shown(text, &reply.shown)?;
    text.extend_from_slice(b".\n")
}

fn push_shown(text: &mut Text, shown: &Option<Shown>) -> Result<(), NoMemory>
    ensures { OnOk result (text.new ≡ text.old ++ shown_text shown.now) }
{
    match shown {
        Some(shown) => push_listing(text, shown.file.file().variables(), &shown.listing),
        None => Ok(()),
    }
}
