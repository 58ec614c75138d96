//! The words for which all rules hold.

ghost use Rattle.std.specs.Prelude.{◌≡◌, ◌&&◌, ℕ, Bool, List, [], ◌∷◌, ◌++◌, true, length, ◌<◌, ◌≤◌, ◌^◌, All, IfOk, IfErr};
ghost use Rattle.std.specs.List.{list_all};
ghost use Rattle.pc_store.specs.Layered.{IsDomain};
ghost use Rattle.pc_store.specs.Sets.{domains_of, Keeps};
ghost use Rattle.pc_file.specs.Products.{value_counts};
ghost use Rattle.pc_file.specs.Rule.{holds};
ghost use Rattle.pc_file.specs.Parts.{parts_of, sets_of, HasNoNodeLimit};
ghost use Rattle.pc_conjunction.specs.Conjunctions.{conjunction_domains};
ghost use Rattle.pc_build.specs.Making.{IsSpelled, AreSpelled, Holds, Made};
ghost use Rattle.pc_build.specs.Building.{IsJoinFault};

use crate::fault::{BuildFault, PartFault};
use crate::joint::Joint;
use crate::parts::set_of_rule;
use pc_base::NoMemory;
use pc_conjunction::Conjunction;
use pc_diagram::{MOST_NODES, MOST_VARIABLES};
use pc_file::{Rule, Variable};
use pc_store::Store;
use std::alloc::Global;

/// How many rules have their sets in one store.
const RULES_OF_A_STORE: usize = 16;

/// The words for which all rules hold. The sets that are made on the way are counted rule by rule.
pub(crate) fn words_of_rules(
    alloc: Global,
    domains: &[u32],
    variables: &[Variable],
    rules: &[Rule],
) -> Result<Conjunction, BuildFault>
    requires domains { domains.now ≡ value_counts variables.now }
    requires some { 0 < length domains.now }
    requires few_variables { length domains.now ≤ MOST_VARIABLES }
    requires sizes { All IsDomain domains.now }
    requires spelled { AreSpelled variables.now rules.now }
    requires few { length rules.now < 2 ^ 32 }
    ensures words { IfOk result (λ all. Holds (value_counts variables.now) all (λ word. list_all (holds variables.now word) rules.now)) }
    ensures small { IfOk result (λ _. HasNoNodeLimit MOST_NODES (value_counts variables.now) (sets_of variables.now (λ word. true) rules.now)) }
    ensures fault { IfErr result (IsJoinFault variables.now rules.now) }
{
    let mut store = Store::new(alloc, domains)?;
    let mut joint = Joint::new(&store)?;
    for place in 0..rules.len() {
        store = store_for(alloc, domains, store, place)?;
        joint = match join_rule(&mut store, variables, joint, &rules[place]) {
            Ok(joint) => joint,
            Err(PartFault::TooLarge { part }) => {
                return Err(BuildFault::NodeLimit {
                    rule: place as u32 + 1,
                    part,
                });
            }
            Err(PartFault::NoMemory) => return Err(BuildFault::NoMemory),
        };
    }
    Ok(joint.all)
}

/// The store for the sets of the rule at a place. It is a new one after so many rules, so that the memory of those before
/// is given back.
fn store_for(alloc: Global, domains: &[u32], store: Store, place: usize) -> Result<Store, NoMemory>
    requires before { domains_of store ≡ domains.now }
    requires some { 0 < length domains.now }
    requires few { length domains.now ≤ MOST_VARIABLES }
    requires sizes { All IsDomain domains.now }
    ensures { IfOk result (λ store. domains_of store ≡ domains.now) }
{
    if place > 0 && place % RULES_OF_A_STORE == 0 {
        Store::new(alloc, domains)
    } else {
        Ok(store)
    }
}

/// The words among others for which one more rule holds. Its parts are made, and then these words are counted.
fn join_rule(
    store: &mut Store,
    variables: &[Variable],
    obeys: Joint,
    rule: &Rule,
) -> Result<Joint, PartFault>
    requires domains { domains_of store.old ≡ value_counts variables.now }
    requires spelled { IsSpelled variables.now rule.now }
    requires obeys { conjunction_domains obeys.all ≡ value_counts variables.now }
    ensures words { (test : List ℕ → Bool) → Holds (value_counts variables.now) obeys.all test → IfOk result (λ joint. Holds (value_counts variables.now) joint.all (λ word. test word && holds variables.now word rule.now)) }
    ensures made { (test : List ℕ → Bool) → Holds (value_counts variables.now) obeys.all test → (new : ℕ) × Made (value_counts variables.now) (parts_of variables.now rule.now ++ (λ word. test word && holds variables.now word rule.now) ∷ []) 0 new result }
    ensures keeps { Keeps store.old store.new }
{
    let mut made = 0;
    let own = set_of_rule(store, variables, rule, &mut made)?;
    let Joint { all, room } = obeys;
    let both = all.narrowed(store, own)?;
    let joint = Joint { all: both, room };
    let counted = joint.counted(store.allocator(), &mut made)?;
    Ok(counted)
}
