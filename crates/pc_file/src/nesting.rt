//! The parentheses of a rule's printed form.

ghost use Rattle.std.specs.Prelude.{◌≡◌, nat_le, ◌≤◌, List};
ghost use Rattle.std.specs.List.{list_all};
ghost use Rattle.pc_file.specs.declared.variable.Variable.{Variable};
ghost use Rattle.pc_file.specs.Nesting.{nesting, open_in_place};
ghost use Rattle.pc_file.specs.PrintedRule.{printing};

use crate::rule::Rule;

/// How much a printed rule binds: 0 for an implication, 1 for `or`, 2 for `and`, 3 for `not`, 4 for all others.
pub fn strength(rule: &Rule) -> u8
    ensures nesting { result ≡ (nesting rule.now).strength }
    ensures printed { (variables : List Variable) → result ≡ (printing variables rule.now).strength }
{
    match rule {
        Rule::Implies(..) => 0,
        Rule::Or(_) => 1,
        Rule::And(_) => 2,
        Rule::Not(_) => 3,
        Rule::Is { .. } => 4,
        Rule::IsNot { .. } => 4,
        Rule::OneOf { .. } => 4,
        Rule::Same(..) => 4,
        Rule::AtMost { .. } => 4,
        Rule::Table { .. } => 4,
    }
}

/// Whether at most `limit` parentheses are open at once in the printed form.
#[cycle(nesting)]
pub fn opens_at_most(rule: &Rule, limit: u32) -> bool
    ensures { result ≡ nat_le (nesting rule.now).open_at_most limit }
{
    match rule {
        Rule::Is { .. } => true,
        Rule::IsNot { .. } => true,
        Rule::OneOf { .. } => true,
        Rule::Not(inner) => opens_in_place(4, inner.get(), limit),
        Rule::And(members) => open_in_places(3, members.as_slice(), limit),
        Rule::Or(members) => open_in_places(2, members.as_slice(), limit),
        Rule::Implies(premise, consequence) => {
            opens_in_place(1, premise.get(), limit) && opens_in_place(1, consequence.get(), limit)
        }
        Rule::Same(..) => limit >= 1,
        Rule::AtMost { members, .. } => {
            limit >= 1 && open_in_places(0, members.as_slice(), limit - 1)
        }
        Rule::Table { .. } => limit >= 1,
    }
}

/// The same where the rule stands in a place that asks for a strength.
#[cycle(nesting)]
fn opens_in_place(asked: u8, rule: &Rule, limit: u32) -> bool
    ensures { result ≡ nat_le (open_in_place asked (nesting rule.now)) limit }
{
    if strength(rule) < asked {
        limit >= 1 && opens_at_most(rule, limit - 1)
    } else {
        opens_at_most(rule, limit)
    }
}

/// The same of several members.
#[cycle(nesting)]
fn open_in_places(asked: u8, rules: &[Rule], limit: u32) -> bool
    ensures { result ≡ list_all (λ rule. nat_le (open_in_place asked (nesting rule)) limit) rules.now }
{
    for rule in rules {
        if !opens_in_place(asked, rule, limit) {
            return false;
        }
    }
    true
}
