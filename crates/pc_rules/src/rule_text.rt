//! Rules in a text.

ghost use Rattle.std.specs.Prelude.{◌≡◌, true, Ok, List, IfOk};
ghost use Rattle.pc_file.specs.declared.rule.Rule.{Rule};
ghost use Rattle.pc_file.specs.declared.variable.Variable.{Variable};
ghost use Rattle.pc_file.specs.Limits.{is_rule};
ghost use Rattle.pc_rules.specs.Parsed.{Gives};
ghost use Rattle.pc_file.specs.Catalogue.{Indexes};
ghost use Rattle.pc_rules.specs.RuleText as spec;
ghost use Rattle.pc_rules.specs.RuleText.{IsRuleText};

use crate::checks::{AtMostFault, has_fault, has_repeat};
use crate::fault::RuleFault;
use crate::grammar::phrase;
use crate::kind::Kind;
use crate::naming::rule_named;
use crate::token::{is_too_deep, tokens};
use pc_file::{Catalogue, Rule};
use std::alloc::Global;

/// The rule that the bytes after the word `rule` spell, or the kind of its first fault.
pub fn read_rule(alloc: Global, names: &Catalogue, text: &[u8]) -> Result<Rule, RuleFault>
    // What is read is spelled so.
    ensures read { IfOk result (λ rule. IsRuleText names.now text.now rule) }
    // What is spelled so is read, unless memory runs out.
    ensures only { (rule : Rule) → IsRuleText names.now text.now rule → Gives (λ r. r) result (Ok rule) }
    // Which fault it is.
    ensures exact { Gives (λ rule. rule) result (spec.rule_of names.now text.now) }
    // The rule keeps the limits of a file of these variables.
    ensures fits { (variables : List Variable) → Indexes names.now variables → IfOk result (λ rule. is_rule variables rule ≡ true) }
{
    first_fault_or_rule(alloc, names, text)
}

#[tactic(auto, unfolding(crate::specs::RuleText::rule_of))]
fn first_fault_or_rule(alloc: Global, names: &Catalogue, text: &[u8]) -> Result<Rule, RuleFault>
    ensures { Gives (λ rule. rule) result (spec.rule_of names.now text.now) }
{
    let tokens = tokens(alloc, text)?;
    if is_too_deep(tokens.as_slice()) {
        return Err(RuleFault::Fault(Kind::Depth));
    }
    let phrase = phrase(alloc, tokens.as_slice())?;
    if has_fault(AtMostFault::Number, &phrase) {
        return Err(RuleFault::Fault(Kind::Number));
    }
    if has_fault(AtMostFault::Length, &phrase) {
        return Err(RuleFault::Fault(Kind::Size));
    }
    let rule = rule_named(alloc, names, &phrase)?;
    if has_repeat(&rule) {
        return Err(RuleFault::Fault(Kind::Repeat));
    }
    Ok(rule)
}
