//! Laws of the grammar of rules. Each function's contract is a law; nothing calls them.

ghost use Rattle.std.specs.Prelude.{◌≡◌, ◌↔◌, ℕ, false, List, Ok};
ghost use Rattle.pc_file.specs.declared.catalogue.Catalogue.{Catalogue};
ghost use Rattle.pc_file.specs.declared.rule.Rule.{Rule};
ghost use Rattle.pc_rules.specs.declared.phrase.Phrase.{Phrase};
ghost use Rattle.pc_rules.specs.declared.token.Token.{Token};
ghost use Rattle.pc_rules.specs.Grammar.{SpellsPhrase};
ghost use Rattle.pc_rules.specs.Reading.{phrase_of};
ghost use Rattle.pc_rules.specs.RuleText.{rule_of, IsRuleText};
ghost use Rattle.pc_rules.specs.Token.{is_too_deep};

/// No tokens spell two phrases.
#[tactic(auto, using(crate::proofs::GrammarComplete::one_spelling))]
pub fn tokens_tell_phrase()
    ensures { (tokens : List Token) (p q : Phrase) → SpellsPhrase 0 p tokens → SpellsPhrase 0 q tokens → p ≡ q }
{}

/// The phrases that are read are exactly those of the grammar, as long as at most 64 parentheses are open at once; and the
/// rules that are read are exactly those that a text spells.
pub fn grammar_is_read()
    ensures phrases { (tokens : List Token) (phrase : Phrase) → is_too_deep tokens ≡ false
        → ((phrase_of tokens ≡ Ok phrase) ↔ SpellsPhrase 0 phrase tokens) }
    ensures spelled { (tokens : List Token) (phrase : Phrase) → phrase_of tokens ≡ Ok phrase → SpellsPhrase 0 phrase tokens }
    ensures rules { (names : Catalogue) (text : List ℕ) (rule : Rule) → (rule_of names text ≡ Ok rule) ↔ IsRuleText names text rule }
{}
