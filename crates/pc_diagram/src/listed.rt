//! What a listing holds.

use crate::word::Word;
use pc_base::Sequence;

/// A value of a variable that some fitting word takes: its position, the two costs of the cheapest such word, and
/// that word.
#[derive(Debug, Drop)]
pub struct Listed {
    pub value: u32,
    pub first: i64,
    pub second: i64,
    pub word: Word,
}

/// Per variable, in order, its listed values, in order.
pub type Listing = Sequence<Sequence<Listed>>;
