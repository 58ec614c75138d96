//! The first words of statements.

ghost use Rattle.std.specs.Prelude.{◌≡◌};
ghost use Rattle.pc_text.specs.Keyword.{keyword_of, follows, expected, named};

use pc_names::same_word;
use pc_rules::Kind;

/// What a statement is about, which its first word tells.
#[derive(Clone, Copy, Debug, PartialEq, Eq)]
pub enum Keyword {
    Product,
    Cost,
    Variable,
    Value,
    Rule,
    End,
}

impl Keyword {
    /// The keyword that a word is, if it is one.
    #[tactic(auto, unfolding(crate::specs::Keyword::keyword_of))]
    pub fn read(word: &[u8]) -> Option<Keyword>
        ensures { result ≡ keyword_of word.now }
    {
        if same_word(word, "product") {
            Some(Keyword::Product)
        } else if same_word(word, "cost") {
            Some(Keyword::Cost)
        } else if same_word(word, "variable") {
            Some(Keyword::Variable)
        } else if same_word(word, "value") {
            Some(Keyword::Value)
        } else if same_word(word, "rule") {
            Some(Keyword::Rule)
        } else if same_word(word, "end") {
            Some(Keyword::End)
        } else {
            None
        }
    }

    /// Whether a statement that begins with `next` may come after one that begins with this.
    pub fn may_precede(self, next: Option<Keyword>) -> bool
        ensures { result ≡ follows self next }
    {
        match self {
            Keyword::Product => matches!(next, Some(Keyword::Cost)),
            Keyword::Cost => matches!(next, Some(Keyword::Cost | Keyword::Variable)),
            Keyword::Variable => matches!(next, Some(Keyword::Value)),
            Keyword::Value => matches!(
                next,
                Some(Keyword::Value | Keyword::Variable | Keyword::Rule | Keyword::End)
            ),
            Keyword::Rule => matches!(next, Some(Keyword::Rule | Keyword::End)),
            Keyword::End => false,
        }
    }

    /// The kind of the fault where a statement may not come after one that begins with this.
    pub fn expected(self) -> Kind
        ensures { result ≡ expected self }
    {
        match self {
            Keyword::Product => Kind::Cost,
            Keyword::Cost => Kind::Variable,
            Keyword::Variable => Kind::Value,
            Keyword::Value => Kind::Value,
            Keyword::Rule => Kind::Rule,
            Keyword::End => Kind::End,
        }
    }

    /// The kind of the fault where a statement that begins with this has wrong words.
    pub fn kind(self) -> Kind
        ensures { result ≡ named self }
    {
        match self {
            Keyword::Product => Kind::Header,
            Keyword::Cost => Kind::Cost,
            Keyword::Variable => Kind::Variable,
            Keyword::Value => Kind::Value,
            Keyword::Rule => Kind::Rule,
            Keyword::End => Kind::End,
        }
    }
}
