//! Places as numbers.

ghost use Rattle.std.specs.Prelude.{◌≡◌, IfOk};

use pc_base::NoMemory;

/// A place in a list as a number of 32 bits. There is no memory for a list of 2^32.
pub fn number(place: usize) -> Result<u32, NoMemory>
    ensures { IfOk result (λ n. n ≡ place) }
{
    u32::try_from(place).map_err(|_| NoMemory)
}
