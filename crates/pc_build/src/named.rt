//! The words that take a value of some name.

ghost use Rattle.std.specs.Prelude.{◌≡◌, ◌<◌, ◌≤◌, ◌-◌, ◌&&◌, ℕ, List, Some, nat_eq, drop, length, slice_index, IfOk};
ghost use Rattle.std.specs.List.{list_any};
ghost use Rattle.pc_diagram.specs.Words.{is_word};
ghost use Rattle.pc_store.specs.Sets.{domains_of, IsIdAt, has, Keeps};
ghost use Rattle.pc_file.specs.Rule.{same_name};
ghost use Rattle.pc_build.specs.Named.{name_of, name_at};

use crate::one_of::takes_one_from;
use pc_base::NoMemory;
use pc_file::Value;
use pc_names::Name;
use pc_store::{Id, Store};
use std::alloc::Global;

/// The words of a layer that take a value of this name at a variable with these values.
pub(crate) fn takes_name_from(
    store: &mut Store,
    layer: u32,
    variable: u32,
    values: &[Value],
    name: &Name,
) -> Result<Id, NoMemory>
    requires order { layer ≤ variable }
    requires inner { variable < length (domains_of store.old) }
    requires width { length values.now ≡ slice_index (domains_of store.old) variable }
    ensures is_id { IfOk result (IsIdAt store.new layer) }
    ensures set { IfOk result (λ id. (word : List ℕ) → has store.new id word ≡ (is_word (drop layer (domains_of store.old)) word && same_name (Some name.now) (name_at values.now word (variable - layer)))) }
    ensures keeps { Keeps store.old store.new }
{
    let places = places_named(store.allocator(), store.domain(variable), values, name)?;
    takes_one_from(store, layer, variable, places.as_slice())
}

/// The places of the values of this name, among so many.
fn places_named(
    alloc: Global,
    count: u32,
    values: &[Value],
    name: &Name,
) -> Result<Vec<u32>, NoMemory>
    requires { count ≡ length values.now }
    ensures { IfOk result (λ places. (value : ℕ) → list_any (nat_eq value) places.items ≡ same_name (Some name.now) (name_of values.now value)) }
{
    let mut places = Vec::new(alloc);
    for place in 0..count {
        if *name == values[place as usize].name {
            places.push(place)?;
        }
    }
    Ok(places)
}
