//! The set of a rule, made after those of its parts.

ghost use Rattle.std.specs.Prelude.{◌≡◌, ℕ, Bool, List, [], ◌∷◌, IfOk};
ghost use Rattle.std.specs.List.{flat_map};
ghost use Rattle.pc_store.specs.Sets.{domains_of, IsIdAt, Keeps};
ghost use Rattle.pc_file.specs.Products.{value_counts};
ghost use Rattle.pc_file.specs.Rule.{holds};
ghost use Rattle.pc_file.specs.Parts.{members_of, parts_of};
ghost use Rattle.pc_build.specs.Making.{IsSpelled, AreSpelled, Denotes, DenoteEach, Made};

use crate::fault::PartFault;
use crate::over_subrules::set_over_subrules;
use pc_base::Sequence;
use pc_diagram::MOST_NODES;
use pc_file::{Rule, Variable};
use pc_store::{Id, Store};

/// The set of a rule. The parts that are made are counted; where one is too large, those before it were.
#[cycle(parts)]
pub(crate) fn set_of_rule(
    store: &mut Store,
    variables: &[Variable],
    rule: &Rule,
    made: &mut u32,
) -> Result<Id, PartFault>
    requires domains { domains_of store.old ≡ value_counts variables.now }
    requires spelled { IsSpelled variables.now rule.now }
    ensures set { IfOk result (Denotes store.new (λ word. holds variables.now word rule.now)) }
    ensures made { Made (value_counts variables.now) (parts_of variables.now rule.now) made.old made.new result }
    ensures keeps { Keeps store.old store.new }
{
    let sets = sets_of_subrules(store, variables, rule, made)?;
    let set = set_over_subrules(store, variables, rule, sets.as_slice())?;
    count_part(store, set, made)?;
    Ok(set)
}

/// The sets of the subrules of a rule, one after another.
#[cycle(parts)]
fn sets_of_subrules(
    store: &mut Store,
    variables: &[Variable],
    rule: &Rule,
    made: &mut u32,
) -> Result<Sequence<Id>, PartFault>
    requires domains { domains_of store.old ≡ value_counts variables.now }
    requires spelled { IsSpelled variables.now rule.now }
    ensures sets { IfOk result (DenoteEach store.new variables.now (members_of rule.now)) }
    ensures made { Made (value_counts variables.now) (flat_map (parts_of variables.now) (members_of rule.now)) made.old made.new result }
    ensures keeps { Keeps store.old store.new }
{
    match rule {
        Rule::Not(inner) => {
            let set = set_of_rule(store, variables, inner.get(), made)?;
            Ok(Sequence::from_slice(store.allocator(), &[set])?)
        }
        Rule::Implies(premise, consequence) => {
            let first = set_of_rule(store, variables, premise.get(), made)?;
            let second = set_of_rule(store, variables, consequence.get(), made)?;
            Ok(Sequence::from_slice(store.allocator(), &[first, second])?)
        }
        Rule::And(members) => sets_of_rules(store, variables, members.as_slice(), made),
        Rule::Or(members) => sets_of_rules(store, variables, members.as_slice(), made),
        Rule::AtMost { members, .. } => sets_of_rules(store, variables, members.as_slice(), made),
        Rule::Is { .. } => Ok(Sequence::new(store.allocator())),
        Rule::IsNot { .. } => Ok(Sequence::new(store.allocator())),
        Rule::OneOf { .. } => Ok(Sequence::new(store.allocator())),
        Rule::Same(..) => Ok(Sequence::new(store.allocator())),
        Rule::Table { .. } => Ok(Sequence::new(store.allocator())),
    }
}

/// The sets of several rules, one after another.
#[cycle(parts)]
fn sets_of_rules(
    store: &mut Store,
    variables: &[Variable],
    rules: &[Rule],
    made: &mut u32,
) -> Result<Sequence<Id>, PartFault>
    requires domains { domains_of store.old ≡ value_counts variables.now }
    requires spelled { AreSpelled variables.now rules.now }
    ensures sets { IfOk result (λ ids. DenoteEach store.new variables.now rules.now ids) }
    ensures made { Made (value_counts variables.now) (flat_map (parts_of variables.now) rules.now) made.old made.new result }
    ensures keeps { Keeps store.old store.new }
{
    let mut sets = Sequence::with_capacity(store.allocator(), rules.len())?;
    for rule in rules {
        sets.push(set_of_rule(store, variables, rule, made)?)?;
    }
    Ok(sets)
}

/// Counts one more part, unless its set is too large. There is no memory for 2^32 parts.
pub(crate) fn count_part(store: &Store, set: Id, made: &mut u32) -> Result<(), PartFault>
    requires { IsIdAt store.now 0 set }
    ensures { (test : List ℕ → Bool) → Denotes store.now test set → Made (domains_of store.now) (test ∷ []) made.old made.new result }
{
    let part = match made.checked_add(1) {
        Some(part) => part,
        None => return Err(PartFault::NoMemory),
    };
    let small = store.is_size_within(set, MOST_NODES)?;
    if !small {
        return Err(PartFault::TooLarge { part });
    }
    *made = part;
    Ok(())
}
