//! The lines of the summary.

ghost use Rattle.std.specs.Prelude.{◌≡◌, ◌++◌, codes, OnOk};
ghost use Rattle.pc_generator.specs.Summary.{diagram_lines, listing_line, number_line, reply_line, session_lines};
ghost use Rattle.pc_generator.specs.Answers.{AreAnswers};

use crate::asking::Answers;
use crate::size::Size;
use crate::told::{cheapest_in, listed_count};
use pc_base::{NoMemory, Sequence, Text};
use pc_calls::Reply;
use pc_diagram::{Diagram, Listed};

/// Puts the number of variables at the end of a text, and how many nodes and edges the diagram has.
pub fn push_diagram_lines(text: &mut Text, size: Size, diagram: &Diagram) -> Result<(), NoMemory>
    ensures { OnOk result (text.new ≡ text.old ++ diagram_lines size diagram.now) }
{
    push_number_line(text, b"variables", u64::from(size.variables()))?;
    push_number_line(text, b"nodes", diagram.node_count())?;
    push_number_line(text, b"edges", diagram.edge_count())
}

/// Puts what the three sessions list at the end of a text.
pub fn push_session_lines(text: &mut Text, size: Size, answers: &Answers) -> Result<(), NoMemory>
    requires { AreAnswers size answers.now }
    ensures { OnOk result (text.new ≡ text.old ++ session_lines size) }
{
    push_reply_line(text, b"open", &answers.unbounded)?;
    push_reply_line(text, b"price", &answers.price_bounded)?;
    push_reply_line(text, b"days", &answers.days_bounded)
}

/// `WORD NUMBER`
fn push_number_line(text: &mut Text, word: &[u8], number: u64) -> Result<(), NoMemory>
    ensures { OnOk result (text.new ≡ text.old ++ number_line word.now number) }
{
    text.extend_from_slice(word)?;
    text.push(b' ')?;
    text.push_unsigned(number)?;
    text.push(b'\n')
}

/// The line of a reply.
fn push_reply_line(text: &mut Text, word: &[u8], reply: &Reply) -> Result<(), NoMemory>
    ensures { OnOk result (text.new ≡ text.old ++ reply_line word.now reply.now) }
{
    match &reply.shown {
        Some(shown) => push_listing_line(text, word, shown.listing.as_slice()),
        None => push_listing_line(text, word, &[]),
    }
}

/// `WORD LISTED PRICE DAYS`
fn push_listing_line(
    text: &mut Text,
    word: &[u8],
    listing: &[Sequence<Listed>],
) -> Result<(), NoMemory>
    ensures { OnOk result (text.new ≡ text.old ++ listing_line word.now listing.now) }
{
    let best = cheapest_in(listing);
    text.extend_from_slice(word)?;
    text.push(b' ')?;
    text.push_unsigned(listed_count(listing)?)?;
    text.push(b' ')?;
    text.push_signed(best.first)?;
    text.push(b' ')?;
    text.push_signed(best.second)?;
    text.push(b'\n')
}
