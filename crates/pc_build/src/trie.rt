//! The words that meet one of several rows of demands.

ghost use Rattle.std.specs.Prelude.{◌≡◌, ◌≤◌, ◌+◌, ◌&&◌, ℕ, List, [], ◌∷◌, true, IsTrue, drop, length, IfOk};
ghost use Rattle.pc_diagram.specs.Words.{is_word};
ghost use Rattle.pc_store.specs.Sets.{domains_of, IsIdAt, has, Keeps};
ghost use Rattle.pc_build.specs.Demands.{is_open, some_meets};

use crate::chain::lengthen;
use crate::demand::Demand;
use crate::rests::{rests_after, rests_by_value};
use pc_base::{NoMemory, Sequence};
use pc_store::{Id, Store};

/// The words from a layer on that meet one of these rows, which have a demand for each variable from there on. Rows that
/// begin alike are gone through together.
pub(crate) fn meeting_some(
    store: &mut Store,
    layer: u32,
    rows: &[Sequence<Demand>],
) -> Result<Id, NoMemory>
    requires { layer ≤ length (domains_of store.old) }
    ensures is_id { IfOk result (IsIdAt store.new layer) }
    ensures set { IfOk result (λ id. (word : List ℕ) → has store.new id word ≡ (is_word (drop layer (domains_of store.old)) word && some_meets rows.now word)) }
    ensures keeps { Keeps store.old store.new }
{
    if ends(rows) {
        return Ok(store.full(layer));
    }
    if rows.is_empty() {
        return Ok(store.empty(layer));
    }
    if layer == store.variables() {
        return Ok(store.empty(layer));
    }
    if are_free(rows) {
        let rest = rests_after(store, rows, 0)?;
        let below = meeting_some(store, layer + 1, rest.as_slice())?;
        return lengthen(store, layer, below);
    }
    let rests = rests_by_value(store.allocator(), rows, store.domain(layer))?;
    let mut children = Vec::new(store.allocator());
    for value in 0..store.domain(layer) {
        let rest = rests[value as usize].as_slice();
        children.push(meeting_some(store, layer + 1, rest)?)?;
    }
    store.node(layer, children.as_slice())
}

/// Whether one of the rows has no demand.
fn ends(rows: &[Sequence<Demand>]) -> bool
    ensures { result ≡ some_meets rows.now [] }
{
    for row in rows {
        if row.is_empty() {
            return true;
        }
    }
    false
}

/// Whether no row asks for a value of the first variable.
fn are_free(rows: &[Sequence<Demand>]) -> bool
    ensures { IsTrue result → (value other : ℕ) (word : List ℕ) → some_meets rows.now (value ∷ word) ≡ some_meets rows.now (other ∷ word) }
{
    for row in rows {
        if !is_free(row.as_slice()) {
            return false;
        }
    }
    true
}

/// Whether a row asks for no value of the first variable.
fn is_free(row: &[Demand]) -> bool
    ensures { IsTrue result → (value : ℕ) → is_open row.now value ≡ true }
{
    match row {
        [] => true,
        [first, ..] => first.is_any(),
    }
}
