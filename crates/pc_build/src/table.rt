//! The words that are in a table.

ghost use Rattle.std.specs.Prelude.{◌≡◌, ◌<◌, ◌≤◌, ◌+◌, ◌&&◌, ℕ, List, All, drop, length, IfOk};
ghost use Rattle.std.specs.List.{list_any};
ghost use Rattle.pc_diagram.specs.Words.{is_word};
ghost use Rattle.pc_store.specs.Sets.{domains_of, IsIdAt, has, Keeps};
ghost use Rattle.pc_file.specs.Rule.{row_fits};
ghost use Rattle.pc_build.specs.Demands.{some_meets, Spans};

use crate::chain::widen;
use crate::demand::{Demand, demands_of};
use crate::span::{Span, span_of};
use crate::trie::meeting_some;
use pc_base::{NoMemory, Sequence};
use pc_store::{Id, Store};
use std::alloc::Global;

/// The words that take the values of some row at the table's variables, which may stand in any order. Want of memory
/// leaves the store as it was but for more nodes.
pub(crate) fn rows_of_table(
    store: &mut Store,
    variables: &[u32],
    rows: &[Sequence<u32>],
) -> Result<Id, NoMemory>
    requires { All (λ variable. variable < length (domains_of store.old)) variables.now }
    ensures is_id { IfOk result (IsIdAt store.new 0) }
    ensures set { IfOk result (λ id. (word : List ℕ) → has store.new id word ≡ (is_word (domains_of store.old) word && list_any (row_fits word variables.now) rows.now)) }
    ensures keeps { Keeps store.old store.new }
{
    let span = span_of(variables, store.variables());
    let demands = demands_of_rows(store.allocator(), span, variables, rows)?;
    let set = meeting_some(store, span.first, demands.as_slice())?;
    widen(store, span.first, 0, set)
}

/// What each row asks of each variable of a span.
fn demands_of_rows(
    alloc: Global,
    span: Span,
    variables: &[u32],
    rows: &[Sequence<u32>],
) -> Result<Sequence<Sequence<Demand>>, NoMemory>
    requires { Spans variables.now span }
    ensures { IfOk result (λ demands. (word : List ℕ) → span.first + span.count ≤ length word
        → some_meets demands (drop span.first word) ≡ list_any (row_fits word variables.now) rows.now) }
{
    let mut demands = Sequence::with_capacity(alloc, rows.len())?;
    for row in rows {
        demands.push(demands_of(alloc, span, variables, row.as_slice())?)?;
    }
    Ok(demands)
}
