//! What lists of sets lead to after each value.

ghost use Rattle.std.specs.Prelude.{◌≡◌, ◌<◌, ◌+◌, length, All, IfOk, IfSome, OnOk};
ghost use Rattle.pc_store.specs.Sets.{domains_of, IsNodeAt};
ghost use Rattle.pc_apply.specs.Lists.{ListsAt, AreRows, IsBefore, HasSteps, HaveSteps, Grows};

use crate::lists::Lists;
use crate::split::Split;
use pc_base::NoMemory;
use pc_diagram::MOST_VARIABLES;
use pc_store::{Children, Node, Store};
use std::alloc::Global;

/// What a list of sets leads to after a value: so many of its sets then have every word, and those that have some words
/// and not all are at this place among the lists of the next layer.
#[derive(Clone, Copy, Debug)]
pub(crate) struct Step {
    pub full: usize,
    pub list: u32,
}

/// The steps of one list, one for each value.
#[derive(Debug, Drop)]
pub(crate) struct Steps {
    pub steps: Vec<Step>,
}

/// What the lists of a layer lead to: the steps of each, and the lists of the next layer.
#[derive(Debug, Drop)]
pub(crate) struct NextLists {
    pub steps: Vec<Steps>,
    pub lists: Lists,
}

/// What the lists of a layer before the last lead to.
pub(crate) fn next_lists(
    alloc: Global,
    store: &Store,
    layer: u32,
    lists: &Lists,
) -> Result<NextLists, NoMemory>
    requires inner { layer < length (domains_of store.now) }
    requires few { layer < MOST_VARIABLES }
    requires lists { ListsAt store.now layer lists.now }
    ensures steps { IfOk result (λ next. HaveSteps store.now layer lists.now next.lists next.steps.items) }
    ensures lists { IfOk result (λ next. ListsAt store.now (layer + 1) next.lists) }
{
    let mut below = Lists::new(alloc);
    let steps = steps_of(alloc, store, layer, lists, &mut below)?;
    Ok(NextLists {
        steps,
        lists: below,
    })
}

/// The steps of each list. The lists of the next layer are put below.
fn steps_of(
    alloc: Global,
    store: &Store,
    layer: u32,
    lists: &Lists,
    below: &mut Lists,
) -> Result<Vec<Steps>, NoMemory>
    requires inner { layer < length (domains_of store.now) }
    requires few { layer < MOST_VARIABLES }
    requires lists { ListsAt store.now layer lists.now }
    requires below { ListsAt store.now (layer + 1) below.old }
    ensures steps { IfOk result (λ steps. HaveSteps store.now layer lists.now below.new steps.items) }
    ensures below { OnOk result (ListsAt store.now (layer + 1) below.new) }
{
    let mut steps = Vec::with_capacity(alloc, lists.len())?;
    for place in 0..lists.len() {
        steps.push(steps_of_list(alloc, store, layer, lists.list(place), below)?)?;
    }
    Ok(steps)
}

/// The steps of one list.
fn steps_of_list(
    alloc: Global,
    store: &Store,
    layer: u32,
    sets: &[Node],
    below: &mut Lists,
) -> Result<Steps, NoMemory>
    requires inner { layer < length (domains_of store.now) }
    requires few { layer < MOST_VARIABLES }
    requires sets { All (IsNodeAt store.now layer) sets.now }
    requires below { ListsAt store.now (layer + 1) below.old }
    ensures steps { IfOk result (HasSteps store.now layer sets.now below.new) }
    ensures more { OnOk result (Grows store.now (layer + 1) below.old below.new) }
{
    let rows = rows_of(alloc, store, layer, sets)?;
    let mut split = Split {
        full: 0,
        rest: Vec::with_capacity(alloc, sets.len())?,
    };
    let mut steps = Vec::with_capacity(alloc, store.domain(layer) as usize)?;
    for value in 0..store.domain(layer) {
        let step = match step_before(rows.as_slice(), value, steps.as_slice()) {
            Some(step) => step,
            None => {
                split.count(store, layer + 1, rows.as_slice(), value)?;
                let list = below.place(alloc, split.rest.as_slice())?;
                Step {
                    full: split.full,
                    list,
                }
            }
        };
        steps.push(step)?;
    }
    Ok(Steps { steps })
}

/// The step of the value before, if all sets go on with the same after both. Most values of a variable are alike.
fn step_before(rows: &[Children<'_>], value: u32, steps: &[Step]) -> Option<Step>
    requires width { All (λ row. value < length row) rows.now }
    requires steps { length steps.now ≡ value }
    ensures { IfSome result (λ step. IsBefore rows.now value steps.now step) }
{
    let before = value.checked_sub(1)?;
    for row in rows {
        if row.node(before) != row.node(value) {
            return None;
        }
    }
    Some(steps[before as usize])
}

/// What each set of a list goes on with.
fn rows_of<'a>(
    alloc: Global,
    store: &'a Store,
    layer: u32,
    sets: &[Node],
) -> Result<Vec<Children<'a>>, NoMemory>
    requires inner { layer < length (domains_of store.now) }
    requires sets { All (IsNodeAt store.now layer) sets.now }
    ensures { IfOk result (λ rows. AreRows store.now layer sets.now rows.items) }
{
    let mut rows = Vec::with_capacity(alloc, sets.len())?;
    for set in sets {
        rows.push(store.children(layer, *set))?;
    }
    Ok(rows)
}
