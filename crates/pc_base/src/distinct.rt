//! Lists without repetition.

ghost use Rattle.std.specs.Prelude.{◌≡◌, ◌==◌};
ghost use Rattle.pc_base.specs.Distinct.{all_differ};

/// Whether no number stands twice. It compares each with those after it, so it is for short lists.
pub fn all_differ(numbers: &[u32]) -> bool
    ensures { result ≡ all_differ ◌==◌ numbers.now }
{
    let mut rest = numbers;
    while let Some((first, others)) = rest.split_first() {
        if others.contains(first) {
            return false;
        }
        rest = others;
    }
    true
}
