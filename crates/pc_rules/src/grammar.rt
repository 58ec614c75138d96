//! The grammar of rules, by recursive descent. Each function reads one form from the front of the tokens that are
//! left. The depth says how deep parentheses may still nest, which bounds the stack.

ghost use Rattle.std.specs.Prelude.{◌≡◌, Ok};
ghost use Rattle.pc_rules.specs.Parsed.{Gives, Reads};
ghost use Rattle.pc_rules.specs.Words.{listed, several, eat_word};
ghost use Rattle.pc_rules.specs.Reading as spec;

use crate::cursor::Cursor;
use crate::fault::{RuleFault, refused};
use crate::forms::{comparison, same, table};
use crate::phrase::{Chain, Phrase};
use crate::token::{Lexeme, Sign, Token};
use pc_file::{MOST_OPEN, is_reserved};
use pc_names::same_word;
use sqlite_items::{Boxed, Items};
use std::alloc::Global;

/// One more than the number of parentheses that may be open at once.
const DEPTH: usize = MOST_OPEN as usize + 1;

/// The phrase that all the tokens say.
#[tactic(auto, unfolding(crate::specs::Reading::phrase_of))]
pub fn phrase<'a>(alloc: Global, tokens: &'a [Token<'a>]) -> Result<Phrase<'a>, RuleFault>
    ensures { Gives (λ phrase. phrase) result (spec.phrase_of tokens.now) }
{
    let mut cursor = Cursor::new(tokens);
    let phrase = rule(alloc, &mut cursor, DEPTH)?;
    if !cursor.is_done() {
        return Err(refused());
    }
    Ok(phrase)
}

fn joint(kind: Chain) -> &'static str
    ensures { result.now ≡ spec.joint kind }
{
    match kind {
        Chain::And => "and",
        Chain::Or => "or",
    }
}

/// The chain of the members. One member is itself.
fn chained<'a>(kind: Chain, mut members: Items<Phrase<'a>>) -> Phrase<'a>
    ensures { result ≡ spec.chained kind members.entry }
{
    if members.len() == 1
        && let Some(only) = members.pop()
    {
        return only;
    }
    match kind {
        Chain::And => Phrase::And(members),
        Chain::Or => Phrase::Or(members),
    }
}

/// `not r`
fn negated<'a>(alloc: Global, inner: Phrase<'a>) -> Result<Phrase<'a>, RuleFault>
    ensures { Gives (λ phrase. phrase) result (Ok (Phrase.Not inner.entry)) }
{
    Ok(Phrase::Not(Boxed::new(alloc, inner)?))
}

/// `r => s`
fn implied<'a>(
    alloc: Global,
    premise: Phrase<'a>,
    conclusion: Phrase<'a>,
) -> Result<Phrase<'a>, RuleFault>
    ensures { Gives (λ phrase. phrase) result (Ok (Phrase.Implies premise.entry conclusion.entry)) }
{
    let premise = Boxed::new(alloc, premise)?;
    let conclusion = Boxed::new(alloc, conclusion)?;
    Ok(Phrase::Implies(premise, conclusion))
}

#[cycle(reading)]
#[tactic(auto, unfolding(crate::specs::Reading::rule_at))]
fn rule<'a>(alloc: Global, cursor: &mut Cursor<'a>, depth: usize) -> Result<Phrase<'a>, RuleFault>
    ensures { Reads (spec.rule_at depth cursor.old) result cursor.new }
{
    if depth == 0 {
        return Err(refused());
    }
    implication(alloc, cursor, depth - 1)
}

#[cycle(reading)]
#[tactic(auto, unfolding(crate::specs::Reading::implication))]
fn implication<'a>(
    alloc: Global,
    cursor: &mut Cursor<'a>,
    depth: usize,
) -> Result<Phrase<'a>, RuleFault>
    ensures { Reads (spec.implication (spec.rule_at depth) cursor.old) result cursor.new }
{
    let premise = chain(alloc, cursor, depth, Chain::Or)?;
    if !cursor.eat(Sign::Arrow) {
        return Ok(premise);
    }
    let conclusion = chain(alloc, cursor, depth, Chain::Or)?;
    implied(alloc, premise, conclusion)
}

#[cycle(reading)]
#[tactic(auto, unfolding(crate::specs::Reading::joined))]
fn chain<'a>(
    alloc: Global,
    cursor: &mut Cursor<'a>,
    depth: usize,
    kind: Chain,
) -> Result<Phrase<'a>, RuleFault>
    ensures { Reads (spec.joined kind (spec.member (spec.rule_at depth) kind) cursor.old) result cursor.new }
{
    let members = members(alloc, cursor, depth, kind)?;
    Ok(chained(kind, members))
}

#[cycle(reading)]
fn members<'a>(
    alloc: Global,
    cursor: &mut Cursor<'a>,
    depth: usize,
    kind: Chain,
) -> Result<Items<Phrase<'a>>, RuleFault>
    ensures { Reads (several (spec.member (spec.rule_at depth) kind) (eat_word (spec.joint kind)) cursor.old) result cursor.new }
{
    let mut found = Items::new(alloc);
    // Each turn takes a token.
    for _turn in 0..cursor.left() {
        found.push(member(alloc, cursor, depth, kind)?)?;
        if !cursor.eat_word(joint(kind)) {
            return Ok(found);
        }
    }
    Err(refused())
}

#[cycle(reading)]
#[tactic(auto, unfolding(crate::specs::Reading::member))]
fn member<'a>(
    alloc: Global,
    cursor: &mut Cursor<'a>,
    depth: usize,
    kind: Chain,
) -> Result<Phrase<'a>, RuleFault>
    ensures { Reads (spec.member (spec.rule_at depth) kind cursor.old) result cursor.new }
{
    match kind {
        Chain::And => negation(alloc, cursor, depth),
        Chain::Or => chain(alloc, cursor, depth, Chain::And),
    }
}

#[cycle(reading)]
#[tactic(auto, unfolding(crate::specs::Reading::negation))]
fn negation<'a>(
    alloc: Global,
    cursor: &mut Cursor<'a>,
    depth: usize,
) -> Result<Phrase<'a>, RuleFault>
    ensures { Reads (spec.negation (spec.rule_at depth) cursor.old) result cursor.new }
{
    if !cursor.eat_word("not") {
        return atom(alloc, cursor, depth);
    }
    negated(alloc, atom(alloc, cursor, depth)?)
}

#[cycle(reading)]
#[tactic(auto, unfolding(crate::specs::Reading::atom))]
fn atom<'a>(alloc: Global, cursor: &mut Cursor<'a>, depth: usize) -> Result<Phrase<'a>, RuleFault>
    ensures { Reads (spec.atom (spec.rule_at depth) cursor.old) result cursor.new }
{
    if cursor.eat(Sign::Open) {
        return parenthesized(alloc, cursor, depth);
    }
    let name = cursor.word()?;
    named(alloc, cursor, depth, name)
}

#[cycle(reading)]
#[tactic(auto, unfolding(crate::specs::Reading::parenthesized))]
fn parenthesized<'a>(
    alloc: Global,
    cursor: &mut Cursor<'a>,
    depth: usize,
) -> Result<Phrase<'a>, RuleFault>
    ensures { Reads (spec.parenthesized (spec.rule_at depth) cursor.old) result cursor.new }
{
    let inner = rule(alloc, cursor, depth)?;
    cursor.expect(Sign::Close)?;
    Ok(inner)
}

/// What begins with a word.
#[cycle(reading)]
#[tactic(auto, unfolding(crate::specs::Reading::named))]
fn named<'a>(
    alloc: Global,
    cursor: &mut Cursor<'a>,
    depth: usize,
    name: Lexeme<'a>,
) -> Result<Phrase<'a>, RuleFault>
    ensures { Reads (spec.named (spec.rule_at depth) name.entry cursor.old) result cursor.new }
{
    if same_word(name.as_bytes(), "same") {
        same(cursor)
    } else if same_word(name.as_bytes(), "atmost") {
        at_most(alloc, cursor, depth)
    } else if same_word(name.as_bytes(), "table") {
        table(alloc, cursor)
    } else if is_reserved(name.as_bytes()) {
        Err(refused())
    } else {
        comparison(alloc, cursor, name)
    }
}

#[cycle(reading)]
#[tactic(auto, unfolding(crate::specs::Reading::at_most))]
fn at_most<'a>(
    alloc: Global,
    cursor: &mut Cursor<'a>,
    depth: usize,
) -> Result<Phrase<'a>, RuleFault>
    ensures { Reads (spec.at_most (spec.rule_at depth) cursor.old) result cursor.new }
{
    let most = cursor.word()?;
    cursor.expect(Sign::Open)?;
    let members = rules(alloc, cursor, depth)?;
    cursor.expect(Sign::Close)?;
    Ok(Phrase::AtMost { most, members })
}

/// One or more rules, with commas between.
#[cycle(reading)]
fn rules<'a>(
    alloc: Global,
    cursor: &mut Cursor<'a>,
    depth: usize,
) -> Result<Items<Phrase<'a>>, RuleFault>
    ensures { Reads (listed (spec.rule_at depth) cursor.old) result cursor.new }
{
    let mut found = Items::new(alloc);
    // Each turn takes a token.
    for _turn in 0..cursor.left() {
        found.push(rule(alloc, cursor, depth)?)?;
        if !cursor.eat(Sign::Comma) {
            return Ok(found);
        }
    }
    Err(refused())
}
