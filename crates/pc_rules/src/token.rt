//! Tokens of rules.

ghost use Rattle.std.specs.Prelude.{◌≡◌, ◌<◌, ◌≤◌, length, IfSome, MatchOption};
ghost use Rattle.std.specs.List.{take_while};
ghost use Rattle.pc_names.specs.Name.{is_name_byte};
ghost use Rattle.pc_rules.specs.Parsed.{Gives};
ghost use Rattle.pc_rules.specs.Token as spec;

use crate::fault::RuleFault;
use crate::kind::Kind;
use pc_base::Sequence;
use pc_file::MOST_OPEN;
use std::alloc::Global;
use std::marker::Model;

/// A mark that is no word.
#[derive(Clone, Copy, Debug, PartialEq, Eq)]
pub enum Sign {
    /// `=>`
    Arrow,
    /// `!=`
    NotEqual,
    /// `=`
    Equal,
    /// `(`
    Open,
    /// `)`
    Close,
    /// `{`
    OpenBrace,
    /// `}`
    CloseBrace,
    /// `,`
    Comma,
}

/// A maximal run of bytes from a to z, 0 to 9 and `_`, where it stands in the text.
#[derive(Debug, Drop)]
pub struct Lexeme<'a> {
    bytes: &'a [u8],
}

impl<'a> Model for Lexeme<'a> {
    ghost use Rattle.std.specs.Prelude.{List, ℕ};
    ghost use Rattle.std.specs.Coded.{coded_list, coded_ℕ};

    ghost Value = { List ℕ };

    ghost coded = { coded_list coded_ℕ };

    ghost view = { λ w. w.bytes.now };
}

impl<'a> Lexeme<'a> {
    pub fn new(bytes: &'a [u8]) -> Lexeme<'a>
        ensures { result ≡ bytes.now }
    {
        Lexeme { bytes }
    }

    pub fn as_bytes(&self) -> &'a [u8]
        ensures { result.now ≡ self.now }
    {
        self.bytes
    }
}

/// A token of a rule.
#[derive(Debug, Drop)]
pub enum Token<'a> {
    Mark(Sign),
    Word(Lexeme<'a>),
}

impl<'a> Token<'a> {
    /// How many bytes it has.
    fn width(&self) -> usize
        ensures { result ≡ length (spec.token_text self.now) }
    {
        match self {
            Token::Mark(Sign::Arrow | Sign::NotEqual) => 2,
            Token::Mark(_) => 1,
            Token::Word(word) => word.as_bytes().len(),
        }
    }
}

/// The longest sign that begins with the first byte, where the second comes after it.
fn sign_at(first: u8, second: u8) -> Option<Sign>
    ensures { result ≡ spec.sign_at first second }
{
    match first {
        b'=' => Some(if second == b'>' {
            Sign::Arrow
        } else {
            Sign::Equal
        }),
        b'!' => (second == b'=').then_some(Sign::NotEqual),
        b'(' => Some(Sign::Open),
        b')' => Some(Sign::Close),
        b'{' => Some(Sign::OpenBrace),
        b'}' => Some(Sign::CloseBrace),
        b',' => Some(Sign::Comma),
        _ => None,
    }
}

fn is_word_byte(byte: u8) -> bool
    ensures { result ≡ is_name_byte byte }
{
    matches!(byte, b'a'..=b'z' | b'0'..=b'9' | b'_')
}

/// How many bytes the word has that the text begins with.
fn word_width(text: &[u8]) -> usize
    ensures { result ≡ length (take_while is_name_byte text.now) }
{
    text.iter().take_while(|byte| is_word_byte(**byte)).count()
}

/// The longest token that the text begins with.
#[tactic(auto, unfolding(crate::specs::Token::first_token))]
fn first_token(text: &[u8]) -> Option<Token<'_>>
    ensures token { result ≡ spec.first_token text.now }
    ensures some { IfSome result (λ token. 0 < length (spec.token_text token)) }
    ensures within { IfSome result (λ token. length (spec.token_text token) ≤ length text.now) }
{
    let first = text.first().copied().unwrap_or(0);
    let second = text.get(1).copied().unwrap_or(0);
    if let Some(sign) = sign_at(first, second) {
        return Some(Token::Mark(sign));
    }
    let word = &text[..word_width(text)];
    if word.is_empty() {
        return None;
    }
    Some(Token::Word(Lexeme::new(word)))
}

/// The tokens of a rule, or the fault that a byte belongs to none.
#[tactic(auto, unfolding(crate::specs::Token::tokens_of))]
pub fn tokens<'a>(alloc: Global, text: &'a [u8]) -> Result<Sequence<Token<'a>>, RuleFault>
    ensures { Gives (λ tokens. tokens) result (spec.tokens_of text.now) }
{
    let mut tokens = Sequence::new(alloc);
    let mut rest = text;
    while let Some((first, after)) = rest.split_first() {
        if *first == b' ' {
            rest = after;
            continue;
        }
        let Some(token) = first_token(rest) else {
            return Err(RuleFault::Fault(Kind::Rule));
        };
        (_, rest) = rest.split_at(token.width());
        tokens.push(token)?;
    }
    Ok(tokens)
}

fn one_if_open(token: &Token<'_>) -> usize
    ensures value { result ≡ spec.one_if_open token.now }
    ensures small { result ≤ 1 }
{
    match token {
        Token::Mark(Sign::Open) => 1,
        _ => 0,
    }
}

fn one_if_closed(token: &Token<'_>) -> usize
    ensures value { result ≡ spec.one_if_closed token.now }
    ensures small { result ≤ 1 }
{
    match token {
        Token::Mark(Sign::Close) => 1,
        _ => 0,
    }
}

/// Whether at some token the opening parentheses so far are more than `MOST_OPEN` more than the closing ones.
#[tactic(auto, unfolding(crate::specs::Token::is_too_deep))]
pub fn is_too_deep(tokens: &[Token<'_>]) -> bool
    ensures { result ≡ spec.is_too_deep tokens.now }
{
    let mut opened = 0usize;
    let mut closed = 0usize;
    for token in tokens {
        opened += one_if_open(token);
        closed += one_if_closed(token);
        if opened.saturating_sub(closed) > MOST_OPEN as usize {
            return true;
        }
    }
    false
}
