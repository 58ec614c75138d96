//! How many bytes numbers have in decimal text.

ghost use Rattle.std.specs.Prelude.{◌≡◌, ◌≤◌, length, decimal};
ghost use Rattle.std.specs.Fmt.{signed_decimal};

/// How many bytes `push_unsigned` puts for a number: 1 to 20.
#[tactic(auto, using(crate::proofs::WidthLemmas::width_step, crate::proofs::WidthLemmas::width_of_digit, crate::proofs::WidthLemmas::width_at_most))]
pub fn unsigned_width(number: u64) -> usize
    ensures width { result ≡ length (decimal number) }
    ensures small { result ≤ 20 }
{
    let mut width = 1;
    let mut rest = number;
    while rest >= 10 {
        rest /= 10;
        width += 1;
    }
    width
}

/// How many bytes `push_signed` puts for a number: 1 to 20.
#[tactic(auto, using(crate::proofs::WidthLemmas::width_of_magnitude))]
pub fn signed_width(number: i64) -> usize
    ensures width { result ≡ length (signed_decimal number) }
    ensures small { result ≤ 20 }
{
    let digits = unsigned_width(number.unsigned_abs());
    if number < 0 { digits + 1 } else { digits }
}
