//! What may be wrong with a rule that the grammar has.

ghost use Rattle.std.specs.Prelude.{◌≡◌, ◌&&◌, not};
ghost use Rattle.std.specs.List.{list_any};
ghost use Rattle.pc_rules.specs.RuleFaults as spec;

use crate::count::count_of;
use crate::phrase::Phrase;
use pc_base::all_differ;
use pc_file::{MOST_MEMBERS, Rule};

/// A fault of an `atmost`.
#[derive(Clone, Copy, Debug)]
pub enum AtMostFault {
    /// The number isn't canonical, or greater than the most members.
    Number,
    /// There are too many members.
    Length,
}

fn stands(fault: AtMostFault, most: &[u8], count: usize) -> bool
    ensures { result ≡ spec.test_of fault most.now count }
{
    match fault {
        AtMostFault::Number => count_of(most).is_none(),
        AtMostFault::Length => count > MOST_MEMBERS,
    }
}

/// Whether some `atmost` has the fault.
#[cycle(faults)]
pub fn has_fault(fault: AtMostFault, phrase: &Phrase<'_>) -> bool
    ensures { result ≡ spec.has_fault fault phrase.now }
{
    match phrase {
        Phrase::Is { .. } => false,
        Phrase::IsNot { .. } => false,
        Phrase::OneOf { .. } => false,
        Phrase::Not(inner) => has_fault(fault, inner.get()),
        Phrase::And(members) => some_has_fault(fault, members.as_slice()),
        Phrase::Or(members) => some_has_fault(fault, members.as_slice()),
        Phrase::Implies(premise, conclusion) => {
            has_fault(fault, premise.get()) || has_fault(fault, conclusion.get())
        }
        Phrase::Same(..) => false,
        Phrase::AtMost { most, members } => {
            stands(fault, most.as_bytes(), members.len())
                || some_has_fault(fault, members.as_slice())
        }
        Phrase::Table { .. } => false,
    }
}

#[cycle(faults)]
fn some_has_fault(fault: AtMostFault, phrases: &[Phrase<'_>]) -> bool
    ensures { result ≡ list_any (spec.has_fault fault) phrases.now }
{
    for phrase in phrases {
        if has_fault(fault, phrase) {
            return true;
        }
    }
    false
}

/// Whether a value stands twice in some `in`, or a variable twice in some `table`.
#[cycle(repeats)]
pub fn has_repeat(rule: &Rule) -> bool
    ensures { result ≡ spec.has_repeat rule.now }
{
    match rule {
        Rule::Is { .. } => false,
        Rule::IsNot { .. } => false,
        Rule::OneOf { values, .. } => !all_differ(values.as_slice()),
        Rule::Not(inner) => has_repeat(inner.get()),
        Rule::And(members) => some_has_repeat(members.as_slice()),
        Rule::Or(members) => some_has_repeat(members.as_slice()),
        Rule::Implies(premise, conclusion) => {
            has_repeat(premise.get()) || has_repeat(conclusion.get())
        }
        Rule::Same(..) => false,
        Rule::AtMost { members, .. } => some_has_repeat(members.as_slice()),
        Rule::Table { variables, .. } => !all_differ(variables.as_slice()),
    }
}

#[cycle(repeats)]
fn some_has_repeat(rules: &[Rule]) -> bool
    ensures { result ≡ list_any spec.has_repeat rules.now }
{
    for rule in rules {
        if has_repeat(rule) {
            return true;
        }
    }
    false
}
