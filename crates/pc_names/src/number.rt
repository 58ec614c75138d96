//! Integers in decimal.

ghost use Rattle.std.specs.Prelude.{◌≡◌, ℤ, ◌↔◌, Some, IfSome, IsTrue, FitsSigned};
ghost use Rattle.std.specs.Int.{w64};
ghost use Rattle.std.specs.Fmt.{signed_decimal};
ghost use Rattle.pc_names.specs.Number.{int_of, unsigned_of};

use itoa::Buffer;

/// The bytes of the longest spelling, that of the least number.
const LONGEST_NUMBER: usize = 20;

/// The number of 64 bits that the bytes spell in canonical decimal: digits with no leading zero, and `-` before
/// those of a negative number.
pub fn read_int(bytes: &[u8]) -> Option<i64>
    ensures read { (z : ℤ) → FitsSigned w64 z → bytes.now ≡ signed_decimal z → result ≡ Some z }
    ensures spelt { IfSome result (λ z. bytes.now ≡ signed_decimal z) }
    ensures value { result ≡ int_of bytes.now }
{
    spelt_int(bytes)
}

/// Such a number that isn't negative.
pub fn read_unsigned(bytes: &[u8]) -> Option<u64>
    ensures { result ≡ unsigned_of bytes.now }
{
    match read_int(bytes) {
        Some(number) if number >= 0 => Some(number as u64),
        _ => None,
    }
}

/// The number whose spelling the bytes are.
fn spelt_int(bytes: &[u8]) -> Option<i64>
    ensures read { (z : ℤ) → FitsSigned w64 z → bytes.now ≡ signed_decimal z → result ≡ Some z }
    ensures spelt { IfSome result (λ z. bytes.now ≡ signed_decimal z) }
    ensures fits { IfSome result (λ z. FitsSigned w64 z) }
{
    match only_candidate(bytes) {
        Some(number) if spells(number, bytes) => Some(number),
        _ => None,
    }
}

/// The one number whose spelling the bytes can be, where there is one.
fn only_candidate(bytes: &[u8]) -> Option<i64>
    ensures { (z : ℤ) → FitsSigned w64 z → bytes.now ≡ signed_decimal z → result ≡ Some z }
{
    if bytes.len() > LONGEST_NUMBER {
        return None;
    }
    let Ok(text) = str::from_utf8(bytes) else {
        return None;
    };
    text.parse().ok()
}

/// Whether the bytes are the spelling of the number.
fn spells(number: i64, bytes: &[u8]) -> bool
    ensures { IsTrue result ↔ (bytes.now ≡ signed_decimal number) }
{
    let mut buffer = Buffer::new();
    buffer.format(number).as_bytes() == bytes
}
