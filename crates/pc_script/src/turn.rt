//! The turns of a script.

use crate::item::Said;

/// Whether anything may come after what was said.
#[derive(Clone, Copy, Debug, PartialEq, Eq)]
pub enum Turn {
    Going,
    Last,
}

/// What is said next, and whether anything may come after it.
#[derive(Debug, Drop)]
pub struct SaidNext {
    pub said: Said,
    pub turn: Turn,
}
