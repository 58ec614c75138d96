//! The words that take values of one name at two variables.

ghost use Rattle.std.specs.Prelude.{◌≡◌, ◌<◌, ◌&&◌, ℕ, List, length, slice_index, IfOk};
ghost use Rattle.pc_diagram.specs.Words.{is_word};
ghost use Rattle.pc_store.specs.Sets.{domains_of, IsIdAt, has, Keeps};
ghost use Rattle.pc_file.specs.Names.{taken_name};
ghost use Rattle.pc_file.specs.Products.{value_counts};
ghost use Rattle.pc_file.specs.Rule.{same_name};
ghost use Rattle.pc_build.specs.Named.{name_at};

use crate::chain::{layer_after, widen};
use crate::named::takes_name_from;
use pc_base::NoMemory;
use pc_file::{Value, Variable};
use pc_store::{Id, Store};

/// The words whose values at two variables have the same name. The variables may be one, which gives all words. Want of
/// memory leaves the store as it was but for more nodes.
pub(crate) fn same_names(
    store: &mut Store,
    variables: &[Variable],
    variable: u32,
    other: u32,
) -> Result<Id, NoMemory>
    requires domains { domains_of store.old ≡ value_counts variables.now }
    requires first { variable < length (domains_of store.old) }
    requires second { other < length (domains_of store.old) }
    ensures is_id { IfOk result (IsIdAt store.new 0) }
    ensures set { IfOk result (λ id. (word : List ℕ) → has store.new id word ≡ (is_word (domains_of store.old) word && same_name (taken_name variables.now word variable) (taken_name variables.now word other))) }
    ensures keeps { Keeps store.old store.new }
{
    let values = variables[variable as usize].values.as_slice();
    let others = variables[other as usize].values.as_slice();
    if variable < other {
        names_agree(store, variable, values, other, others)
    } else if other < variable {
        names_agree(store, other, others, variable, values)
    } else {
        Ok(store.full(0))
    }
}

/// The words that take values of one name at two variables with these values, of which the first comes before the
/// second.
fn names_agree(
    store: &mut Store,
    first: u32,
    values: &[Value],
    second: u32,
    others: &[Value],
) -> Result<Id, NoMemory>
    requires order { first < second }
    requires inner { second < length (domains_of store.old) }
    requires first { length values.now ≡ slice_index (domains_of store.old) first }
    requires second { length others.now ≡ slice_index (domains_of store.old) second }
    ensures is_id { IfOk result (IsIdAt store.new 0) }
    ensures set { IfOk result (λ id. (word : List ℕ) → has store.new id word ≡ (is_word (domains_of store.old) word && same_name (name_at values.now word first) (name_at others.now word second))) }
    ensures keeps { Keeps store.old store.new }
{
    let layer = layer_after(store, first);
    let mut rests = Vec::with_capacity(store.allocator(), values.len())?;
    for value in values {
        rests.push(takes_name_from(store, layer, second, others, &value.name)?)?;
    }
    let set = store.node(first, rests.as_slice())?;
    widen(store, first, 0, set)
}
