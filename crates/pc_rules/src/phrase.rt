//! Rules as they are written, before their names are looked up.

use crate::token::Lexeme;
use pc_base::Sequence;
use sqlite_items::{Boxed, Items};

/// What a rule's tokens say, with the words that they name.
#[derive(Debug, Drop)]
pub enum Phrase<'a> {
    /// `v=a`
    Is {
        variable: Lexeme<'a>,
        value: Lexeme<'a>,
    },
    /// `v!=a`
    IsNot {
        variable: Lexeme<'a>,
        value: Lexeme<'a>,
    },
    /// `v in {a, b}`
    OneOf {
        variable: Lexeme<'a>,
        values: Sequence<Lexeme<'a>>,
    },
    /// `not r`
    Not(Boxed<Phrase<'a>>),
    /// `r and s and t`
    And(Items<Phrase<'a>>),
    /// `r or s or t`
    Or(Items<Phrase<'a>>),
    /// `r => s`
    Implies(Boxed<Phrase<'a>>, Boxed<Phrase<'a>>),
    /// `same(v, w)`
    Same(Lexeme<'a>, Lexeme<'a>),
    /// `atmost k (r, s)`
    AtMost {
        most: Lexeme<'a>,
        members: Items<Phrase<'a>>,
    },
    /// `table (v, w) {a b, c d}`
    Table {
        variables: Sequence<Lexeme<'a>>,
        rows: Sequence<Sequence<Lexeme<'a>>>,
    },
}

/// How members are joined without parentheses.
#[derive(Clone, Copy, Debug)]
pub enum Chain {
    And,
    Or,
}
