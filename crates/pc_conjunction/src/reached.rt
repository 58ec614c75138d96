//! Which places of a layer are reached.

ghost use Rattle.std.specs.Prelude.{◌≡◌, ◌<◌, length, All, IfOk};
ghost use Rattle.pc_conjunction.specs.Reached.{is_marked, MarksMore, AreReached};

use pc_base::{NoMemory, Sequence};
use std::alloc::Global;

/// Whether a place of a layer is marked. Past the last mark is none.
pub(crate) fn is_reached(marks: &[bool], place: usize) -> bool
    ensures { result ≡ is_marked marks.now place }
{
    match marks.get(place) {
        Some(marked) => *marked,
        None => false,
    }
}

/// A mark for each of the so many places of the next layer: those are marked that marked places go on in.
pub(crate) fn reached_below(
    alloc: Global,
    marks: &[bool],
    columns: &[Sequence<u32>],
    count: u32,
) -> Result<Vec<bool>, NoMemory>
    requires within { All (All (λ next. next < count)) columns.now }
    ensures { IfOk result (λ below. AreReached marks.now columns.now count below.items) }
{
    let mut below = vec![in alloc; false; count as usize]?;
    for column in columns {
        mark(below.as_mut_slice(), marks, column.as_slice());
    }
    Ok(below)
}

/// Marks the places of the next layer that the marked ones go on in by a column.
fn mark(below: &mut [bool], marks: &[bool], column: &[u32])
    requires within { All (λ next. next < length below.old) column.now }
    ensures { MarksMore marks.now column.now below.old below.new }
{
    for place in 0..column.len() {
        if is_reached(marks, place) {
            below[column[place] as usize] = true;
        }
    }
}
