//! What holds of the types of this crate.

use crate::memory::NoMemory;
use crate::reserved::Reserved;
use crate::sequence::Sequence;
use crate::text::{Line, Text};
use crate::threads::crosses_threads;

/// Lists go to other threads where their items do.
pub fn lists_cross_threads() {
    crosses_threads::<NoMemory>();
    crosses_threads::<Text>();
    crosses_threads::<Sequence<Line>>();
    crosses_threads::<Reserved<Line>>();
}
