//! A place among the tokens of a rule.

ghost use Rattle.std.specs.Prelude.{◌≡◌, [], ◌∷◌, length, IsTrue, ◌↔◌, MatchOption, IfSome, IfNone};
ghost use Rattle.pc_rules.specs.Parsed.{Reads};
ghost use Rattle.pc_rules.specs.Words as spec;

use crate::fault::{RuleFault, refused};
use crate::token::{Lexeme, Sign, Token};
use pc_file::is_reserved;
use pc_names::same_word;
use std::marker::Model;

/// Reads tokens from left to right. Contracts see it as the tokens that are left.
#[derive(Drop)]
pub struct Cursor<'a> {
    tokens: &'a [Token<'a>],
    /// How many were read.
    place: usize,
}

impl<'a> Model for Cursor<'a> {
    ghost use Rattle.std.specs.Prelude.{List, drop};
    ghost use Rattle.pc_rules.specs.declared.token.Token.{Token};

    ghost Value = { List Token };

    ghost view = { λ c. drop c.place c.tokens.now };
}

impl<'a> Cursor<'a> {
    /// All the tokens are left.
    pub fn new(tokens: &'a [Token<'a>]) -> Cursor<'a>
        ensures { result ≡ tokens.now }
    {
        Cursor { tokens, place: 0 }
    }

    /// How many tokens are left.
    pub fn left(&self) -> usize
        ensures { result ≡ length self.now }
    {
        self.tokens.len().saturating_sub(self.place)
    }

    /// The next token, which is then read.
    fn next(&mut self) -> Option<&'a Token<'a>>
        ensures { MatchOption result ((self.old ≡ []) × (self.new ≡ [])) (λ token. self.old ≡ token.now ∷ self.new) }
    {
        let token = self.tokens.get(self.place)?;
        self.place += 1;
        Some(token)
    }

    /// Whether a sign is next.
    #[tactic(auto, unfolding(crate::specs::Words::sees))]
    fn sees(&self, sign: Sign) -> bool
        ensures { result ≡ spec.sees sign self.now }
    {
        match self.tokens.get(self.place) {
            Some(Token::Mark(other)) => same_sign(*other, sign),
            _ => false,
        }
    }

    /// Whether a word is next.
    #[tactic(auto, unfolding(crate::specs::Words::sees_word))]
    fn sees_word(&self, word: &str) -> bool
        ensures { result ≡ spec.sees_word word.now self.now }
    {
        match self.tokens.get(self.place) {
            Some(Token::Word(other)) => same_word(other.as_bytes(), word),
            _ => false,
        }
    }

    /// Whether a sign is next, which is then read.
    #[tactic(auto, unfolding(crate::specs::Words::sees))]
    pub fn eat(&mut self, sign: Sign) -> bool
        ensures found { result ≡ spec.sees sign self.old }
        ensures left { self.new ≡ spec.past result self.old }
    {
        let found = self.sees(sign);
        if found {
            self.next();
        }
        found
    }

    /// Whether a word is next, which is then read.
    #[tactic(auto, unfolding(crate::specs::Words::sees_word))]
    pub fn eat_word(&mut self, word: &str) -> bool
        ensures found { result ≡ spec.sees_word word.now self.old }
        ensures left { self.new ≡ spec.past result self.old }
    {
        let found = self.sees_word(word);
        if found {
            self.next();
        }
        found
    }

    /// Reads a sign, which has to be next.
    #[tactic(auto, unfolding(crate::specs::Words::expect))]
    pub fn expect(&mut self, sign: Sign) -> Result<(), RuleFault>
        ensures { Reads (spec.expect sign self.old) result self.new }
    {
        if self.eat(sign) {
            Ok(())
        } else {
            Err(refused())
        }
    }

    /// Reads any word.
    #[tactic(auto, unfolding(crate::specs::Words::word))]
    pub fn word(&mut self) -> Result<Lexeme<'a>, RuleFault>
        ensures { Reads (spec.word self.old) result self.new }
    {
        match self.next() {
            Some(Token::Word(word)) => Ok(Lexeme::new(word.as_bytes())),
            _ => Err(refused()),
        }
    }

    /// The next word, which is then read; `None` at a sign and at the end.
    pub fn next_word(&mut self) -> Option<Lexeme<'a>>
        ensures some { IfSome result (λ word. self.old ≡ Token.Word word ∷ self.new) }
        ensures none { IfNone result (spec.words_at self.old ≡ ([], self.old)) }
        ensures kept { IfNone result (self.new ≡ self.old) }
    {
        match self.tokens.get(self.place) {
            Some(Token::Word(word)) => {
                self.place += 1;
                Some(Lexeme::new(word.as_bytes()))
            }
            _ => None,
        }
    }

    /// Reads a word that may name a variable.
    #[tactic(auto, unfolding(crate::specs::Words::variable))]
    pub fn variable(&mut self) -> Result<Lexeme<'a>, RuleFault>
        ensures { Reads (spec.variable self.old) result self.new }
    {
        let word = self.word()?;
        if is_reserved(word.as_bytes()) {
            return Err(refused());
        }
        Ok(word)
    }

    /// Whether no token is left.
    pub fn is_done(&self) -> bool
        ensures { IsTrue result ↔ (self.now ≡ []) }
    {
        self.left() == 0
    }
}

#[tactic(auto, unfolding(crate::specs::Words::same_sign))]
fn same_sign(first: Sign, second: Sign) -> bool
    ensures { result ≡ spec.same_sign first second }
{
    first == second
}
