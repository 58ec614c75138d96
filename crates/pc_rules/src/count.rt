//! The number of `atmost`.

ghost use Rattle.std.specs.Prelude.{◌≡◌};
ghost use Rattle.pc_rules.specs.Counts as spec;

use pc_file::MOST_MEMBERS;
use pc_names::read_int;

/// The number that a word spells in canonical decimal, where it is from 0 to the most members of an `atmost`.
pub fn count_of(word: &[u8]) -> Option<u32>
    ensures { result ≡ spec.count_of word.now }
{
    match read_int(word) {
        Some(number) => small_number(number),
        None => None,
    }
}

fn small_number(number: i64) -> Option<u32>
    ensures { result ≡ spec.small_number number }
{
    if 0 <= number && number <= MOST_MEMBERS as i64 {
        Some(number as u32)
    } else {
        None
    }
}
