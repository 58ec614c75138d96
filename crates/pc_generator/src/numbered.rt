//! Names of a letter and a number.

ghost use Rattle.std.specs.Prelude.{◌≡◌, ◌≤◌, ◌∷◌, decimal, IfOk, IsTrue};
ghost use Rattle.pc_names.specs.Name.{is_letter};
ghost use Rattle.pc_diagram.specs.declared.limits.TheConstants.{MOST_VARIABLES};

use pc_base::{NoMemory, Text};
use pc_names::Name;
use std::alloc::Global;

/// The name of a letter and a number.
pub fn numbered_name(alloc: Global, letter: u8, number: u32) -> Result<Name, NoMemory>
    requires letter { IsTrue (is_letter letter) }
    requires small { number ≤ MOST_VARIABLES }
    ensures { IfOk result (λ name. name ≡ letter ∷ decimal number) }
{
    let mut text = Text::new(alloc);
    text.push(letter)?;
    text.push_unsigned(u64::from(number))?;
    Ok(Name::read(text.as_slice()).unwrap())
}
