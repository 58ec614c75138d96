//! The set of a rule, from those of its subrules.

ghost use Rattle.std.specs.Prelude.{◌≡◌, IfOk};
ghost use Rattle.pc_store.specs.Sets.{domains_of, Keeps};
ghost use Rattle.pc_file.specs.Products.{value_counts};
ghost use Rattle.pc_file.specs.Rule.{holds};
ghost use Rattle.pc_file.specs.Parts.{members_of};
ghost use Rattle.pc_build.specs.Making.{IsSpelled, Denotes, DenoteEach};

use crate::joined::{all_of, any_of};
use crate::one_of::takes_one_of;
use crate::same::same_names;
use crate::table::rows_of_table;
use pc_apply::{at_most, not, or};
use pc_base::NoMemory;
use pc_file::{Rule, Variable};
use pc_store::{Id, Store};

/// The words for which a rule holds, where the sets are those of its subrules in order.
pub(crate) fn set_over_subrules(
    store: &mut Store,
    variables: &[Variable],
    rule: &Rule,
    sets: &[Id],
) -> Result<Id, NoMemory>
    requires domains { domains_of store.old ≡ value_counts variables.now }
    requires spelled { IsSpelled variables.now rule.now }
    requires sets { DenoteEach store.old variables.now (members_of rule.now) sets.now }
    ensures set { IfOk result (Denotes store.new (λ word. holds variables.now word rule.now)) }
    ensures keeps { Keeps store.old store.new }
{
    match rule {
        Rule::Is { variable, value } => takes_one_of(store, *variable, &[*value]),
        Rule::IsNot { variable, value } => {
            let taken = takes_one_of(store, *variable, &[*value])?;
            not(store, taken)
        }
        Rule::OneOf { variable, values } => takes_one_of(store, *variable, values.as_slice()),
        Rule::Not(_) => not(store, sets[0]),
        Rule::And(_) => all_of(store, sets),
        Rule::Or(_) => any_of(store, sets),
        Rule::Implies(..) => {
            let other = not(store, sets[0])?;
            or(store, other, sets[1])
        }
        Rule::Same(variable, other) => same_names(store, variables, *variable, *other),
        Rule::AtMost { most, .. } => at_most(store, *most, sets),
        Rule::Table {
            variables: these,
            rows,
        } => rows_of_table(store, these.as_slice(), rows.as_slice()),
    }
}
