//! The text of a listing.

ghost use Rattle.std.specs.Prelude.{◌≡◌, ◌++◌, ◌∷◌, codes, OnOk, OnErr};
ghost use Rattle.std.specs.Fmt.{signed_decimal};
ghost use Rattle.pc_base.specs.Grown.{HasGrown};
ghost use Rattle.pc_file.specs.ListingText.{name_text, word_text, item_text, variable_text, listing_text};

use crate::variable::Variable;
use pc_base::{NoMemory, Text};
use pc_diagram::{Listed, Listing};

/// Puts a listing at the end of a text, with the names of the variables and values that it is of: per variable a
/// line `var NAME`, and per listed value a line `val NAME COST COST : NAME NAME ..` with the names of its word. Want
/// of memory leaves the text as it was.
pub fn push_listing(
    text: &mut Text,
    variables: &[Variable],
    listing: &Listing,
) -> Result<(), NoMemory>
    ensures ok { OnOk result (text.new ≡ text.old ++ listing_text variables.now listing.now) }
    ensures err { OnErr result (text.new ≡ text.old) }
{
    let before = text.len();
    let done = push_variables(text, variables, listing);
    if done.is_err() {
        text.truncate(before);
    }
    done
}

#[tactic(auto, using(pc_base::proofs::GrownLemmas::grown_same, pc_base::proofs::GrownLemmas::grown_on))]
fn push_variables(
    text: &mut Text,
    variables: &[Variable],
    listing: &Listing,
) -> Result<(), NoMemory>
    ensures ok { OnOk result (text.new ≡ text.old ++ listing_text variables.now listing.now) }
    ensures err { OnErr result (HasGrown text.old text.new) }
{
    for (variable, items) in variables.iter().zip(listing.as_slice()) {
        push_variable(text, variables, variable, items.as_slice())?;
    }
    Ok(())
}

#[tactic(auto, using(pc_base::proofs::GrownLemmas::grown_same, pc_base::proofs::GrownLemmas::grown_on))]
fn push_variable(
    text: &mut Text,
    variables: &[Variable],
    variable: &Variable,
    items: &[Listed],
) -> Result<(), NoMemory>
    ensures ok { OnOk result (text.new ≡ text.old ++ variable_text variables.now variable.now items.now) }
    ensures err { OnErr result (HasGrown text.old text.new) }
{
    text.extend_from_slice(b"var ")?;
    text.extend_from_slice(variable.name.as_bytes())?;
    text.push(b'\n')?;
    for item in items {
        push_item(text, variables, variable, item)?;
    }
    Ok(())
}

#[tactic(auto, using(pc_base::proofs::GrownLemmas::grown_same, pc_base::proofs::GrownLemmas::grown_on))]
fn push_item(
    text: &mut Text,
    variables: &[Variable],
    variable: &Variable,
    item: &Listed,
) -> Result<(), NoMemory>
    ensures ok { OnOk result (text.new ≡ text.old ++ item_text variables.now variable.now item.now) }
    ensures err { OnErr result (HasGrown text.old text.new) }
{
    text.extend_from_slice(b"val ")?;
    push_name(text, variable, item.value)?;
    push_costs(text, item)?;
    push_word(text, variables, item.word.as_slice())?;
    text.push(b'\n')
}

/// The costs of a listed value, each after a space, and the colon.
#[tactic(auto, using(pc_base::proofs::GrownLemmas::grown_same, pc_base::proofs::GrownLemmas::grown_on))]
fn push_costs(text: &mut Text, item: &Listed) -> Result<(), NoMemory>
    ensures ok { OnOk result (text.new ≡ text.old ++ (32 ∷ signed_decimal item.now.first ++ 32 ∷ signed_decimal item.now.second ++ codes " :")) }
    ensures err { OnErr result (HasGrown text.old text.new) }
{
    text.push(b' ')?;
    text.push_signed(item.first)?;
    text.push(b' ')?;
    text.push_signed(item.second)?;
    text.extend_from_slice(b" :")
}

#[tactic(auto, using(pc_base::proofs::GrownLemmas::grown_same, pc_base::proofs::GrownLemmas::grown_on))]
fn push_word(text: &mut Text, variables: &[Variable], word: &[u32]) -> Result<(), NoMemory>
    ensures ok { OnOk result (text.new ≡ text.old ++ word_text variables.now word.now) }
    ensures err { OnErr result (HasGrown text.old text.new) }
{
    for (variable, value) in variables.iter().zip(word) {
        text.push(b' ')?;
        push_name(text, variable, *value)?;
    }
    Ok(())
}

#[tactic(auto, using(pc_base::proofs::GrownLemmas::grown_same, pc_base::proofs::GrownLemmas::grown_on))]
fn push_name(text: &mut Text, variable: &Variable, value: u32) -> Result<(), NoMemory>
    ensures ok { OnOk result (text.new ≡ text.old ++ name_text variable.now value) }
    ensures err { OnErr result (HasGrown text.old text.new) }
{
    match variable.values.get(value as usize) {
        Some(value) => text.extend_from_slice(value.name.as_bytes()),
        None => Ok(()),
    }
}
