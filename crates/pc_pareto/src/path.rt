//! The path of an item.

ghost use Rattle.std.specs.Prelude.{◌≡◌, ◌++◌, [], slice_index_or, length, IfOk};
ghost use Rattle.pc_pareto.specs.Fronts.{item_at, no_item, word_at};
ghost use Rattle.pc_pareto.specs.Joined.{joined};

use crate::back::Back;
use crate::front::Front;
use crate::front_item::FrontItem;
use pc_base::{NoMemory, Sequence};
use pc_diagram::{Side, Word};
use std::alloc::Global;

/// The word that the steps back of an item give, which is so far from the end of a side.
pub(crate) fn path_of(
    alloc: Global,
    side: Side,
    stages: &[Sequence<Front>],
    distance: usize,
    item: &FrontItem,
) -> Result<Word, NoMemory>
    ensures { IfOk result (λ word. word ≡ word_at side stages.now distance item.now) }
{
    let mut values = Vec::with_capacity(alloc, distance)?;
    let mut back = item.back;
    let mut left = distance;
    while left > 0 {
        left -= 1;
        values.push(back.value)?;
        back = back_at(stages, left, &back);
    }
    Ok(Word::from_vec(in_order(side, values)))
}

/// Values that were taken from the last one on, in the order of a word of the side.
fn in_order(side: Side, mut values: Vec<u32>) -> Vec<u32>
    ensures { result.items ≡ joined side values.items [] }
{
    match side {
        Side::Heads => {
            values.reverse();
            values
        }
        Side::Tails => values,
    }
}

/// The step back of the item that a step back names; none where it names none.
fn back_at(stages: &[Sequence<Front>], distance: usize, back: &Back) -> Back
    ensures { result ≡ (item_at stages.now distance back.now.node back.now.place).back }
{
    back_of(items_of(stage_of(stages, distance), back.node), back.place)
}

fn stage_of(stages: &[Sequence<Front>], distance: usize) -> &[Front]
    ensures { result.now ≡ slice_index_or stages.now distance [] }
{
    match stages.get(distance) {
        Some(stage) => stage.as_slice(),
        None => &[],
    }
}

fn items_of(stage: &[Front], node: u32) -> &[FrontItem]
    ensures { result.now ≡ slice_index_or stage.now node [] }
{
    match stage.get(node as usize) {
        Some(front) => front.as_slice(),
        None => &[],
    }
}

fn back_of(items: &[FrontItem], place: u32) -> Back
    ensures { result ≡ (slice_index_or items.now place no_item).back }
{
    match items.get(place as usize) {
        Some(item) => item.back,
        None => Back {
            node: 0,
            value: 0,
            place: 0,
            rank: 0,
        },
    }
}
