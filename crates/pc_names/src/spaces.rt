//! The spaces between the words of a line.

ghost use Rattle.std.specs.Prelude.{◌≡◌, ◌≤◌, not, length};
ghost use Rattle.std.specs.List.{position_or_len};
ghost use Rattle.pc_names.specs.Spaces.{is_space};

/// Where the first word begins, or the length where there is none.
#[tactic(auto, using(std::proofs::lemmas::List::Sums::position_or_len_is))]
pub fn word_place(line: &[u8]) -> usize
    ensures place { result ≡ position_or_len (λ byte. not (is_space byte)) line.now }
    ensures within { result ≤ length line.now }
{
    for (place, byte) in line.iter().enumerate() {
        if *byte != b' ' {
            return place;
        }
    }
    line.len()
}

/// Where the first space is, or the length where there is none.
#[tactic(auto, using(std::proofs::lemmas::List::Sums::position_or_len_is))]
pub fn space_place(bytes: &[u8]) -> usize
    ensures place { result ≡ position_or_len is_space bytes.now }
    ensures within { result ≤ length bytes.now }
{
    for (place, byte) in bytes.iter().enumerate() {
        if *byte == b' ' {
            return place;
        }
    }
    bytes.len()
}
