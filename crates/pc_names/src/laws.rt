//! What holds of the types of this crate, and of spellings.

ghost use Rattle.std.specs.Prelude.{◌≡◌};
ghost use Rattle.std.specs.Fmt.{signed_decimal};

use crate::name::{Name, NameFault};
use crate::names::Names;
use pc_base::crosses_threads;

/// No two numbers have one spelling.
pub fn spelling_tells_number(first: i64, second: i64)
    ensures { signed_decimal first ≡ signed_decimal second → first ≡ second }
{}

/// Names go to other threads.
pub fn names_cross_threads() {
    crosses_threads::<Name>();
    crosses_threads::<NameFault>();
    crosses_threads::<Names>();
}
