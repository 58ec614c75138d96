//! Names.

ghost use Rattle.std.specs.Prelude.{◌≡◌, true, false, nat_eq, IsTrue, MatchResult};
ghost use Rattle.std.proofs.Common.{rules};
ghost use Rattle.std.specs.Hash as fed;
ghost use Rattle.std.specs.Cmp.Lexicographic.{pointwise};
ghost use Rattle.std.specs.Cmp.Rules.{comparing, hashing};
ghost use Rattle.std.specs.List.{list_all};
ghost use Rattle.pc_names.specs.Name as spec;
ghost use Rattle.pc_names.specs.Name.{is_name_byte, is_name};

use std::hash::{Hash, Hasher};
use std::marker::Model;
use thiserror::Error;

/// How many bytes the longest name has.
pub const LONGEST_NAME: usize = 32;

/// A name: one letter from a to z, and after it at most 31 of a to z, 0 to 9 and `_`.
#[derive(Clone, Copy, Debug)]
pub struct Name {
    bytes: [u8; LONGEST_NAME],
    count: u8,
}

impl Model for Name {
    ghost use Rattle.std.specs.Prelude.{List, ℕ, length, take};
    ghost use Rattle.pc_names.specs.Stored.{padded, IsStored};

    ghost Value = { List ℕ };

    ghost view = { λ n. take n.count n.bytes };

    ghost invariant = { λ n. IsStored n.bytes n.count };

    ghost inverse = { λ spelling. record { bytes = padded spelling; count = length spelling } };
}

/// The bytes spell no name.
#[derive(Clone, Copy, Debug, PartialEq, Eq, Error)]
#[error("not a name")]
pub struct NameFault;

impl Name {
    /// The name that the bytes spell.
    pub fn read(bytes: &[u8]) -> Result<Name, NameFault>
        ensures { MatchResult result (λ name. (is_name bytes.now ≡ true) × (name ≡ bytes.now)) (λ _. is_name bytes.now ≡ false) }
    {
        if !spells_name(bytes) {
            return Err(NameFault);
        }
        let mut kept = [0; LONGEST_NAME];
        kept[..bytes.len()].copy_from_slice(bytes);
        Ok(Name {
            bytes: kept,
            count: bytes.len() as u8,
        })
    }

    /// The spelling.
    pub fn as_bytes(&self) -> &[u8]
        ensures spelling { result.now ≡ self.now }
        ensures spelt { is_name result.now ≡ true }
    {
        &self.bytes[..self.count as usize]
    }
}

impl PartialEq for Name {
    ghost eq = { pointwise nat_eq };

    ghost laws = { Prim.search (comparing, rules) };

    fn eq(&self, other: &Name) -> bool {
        self.as_bytes() == other.as_bytes()
    }
}

impl Eq for Name {
    ghost laws = { Prim.search (comparing, rules) };
}

impl Hash for Name {
    ghost hash_input = { fed.str };

    ghost respects_eq = { Prim.search (hashing, rules) };

    fn hash<H: Hasher>(&self, state: &mut H) {
        state.write(self.as_bytes());
        state.write_u8(0xff);
    }
}

/// Whether the bytes spell a name.
#[tactic(auto, using(crate::proofs::Spellings::is_name_parts))]
fn spells_name(bytes: &[u8]) -> bool
    ensures { result ≡ is_name bytes.now }
{
    match bytes {
        [] => false,
        [first, rest @ ..] => is_letter(*first) && rest.len() < LONGEST_NAME && may_follow(rest),
    }
}

/// Whether a byte is from a to z.
fn is_letter(byte: u8) -> bool
    ensures { result ≡ spec.is_letter byte }
{
    byte.is_ascii_lowercase()
}

/// Whether the bytes may stand in a name after its first letter.
fn may_follow(bytes: &[u8]) -> bool
    ensures { result ≡ list_all is_name_byte bytes.now }
{
    bytes
        .iter()
        .all(|byte| matches!(*byte, b'a'..=b'z' | b'0'..=b'9' | b'_'))
}
