//! The bounds of the generator's sessions.

ghost use Rattle.std.specs.Prelude.{◌≡◌, pos};
ghost use Rattle.pc_generator.specs.GeneratorCalls.{most_days, most_price};

use crate::size::Size;

/// The most that the second session's price may be.
pub fn most_price(size: Size) -> i64
    ensures { result ≡ pos (most_price size) }
{
    10 * (i64::from(size.variables() / 2) + 3)
}

/// The most days of the third session.
pub fn most_days(size: Size) -> i64
    ensures { result ≡ pos (most_days size) }
{
    6 * i64::from(size.variables())
}
