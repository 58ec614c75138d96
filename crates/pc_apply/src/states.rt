//! The different states of a layer.

ghost use Rattle.std.specs.Prelude.{◌≡◌, IfOk, OnOk};
ghost use Rattle.pc_apply.specs.Levels.{StandsFor, with_state};

use indexmap::IndexSet;
use pc_base::NoMemory;
use pc_store::number;
use std::hash::Hash;

/// The place of a state, which goes to the end if it isn't there.
pub(crate) fn place<S: Eq + Hash + Drop>(
    states: &mut IndexSet<S>,
    state: S,
) -> Result<u32, NoMemory>
    ensures stands { IfOk result (λ n. StandsFor S.eq states.new.keys n state) }
    ensures keys { OnOk result (states.new.keys ≡ with_state S.eq states.old.keys state) }
{
    let (place, _) = states.insert_full(state)?;
    number(place)
}

/// The same for a state that may stand at a place that is known, such as that of the state before: there it is found
/// without its hash.
pub(crate) fn place_near<S: Eq + Hash + Drop>(
    states: &mut IndexSet<S>,
    near: Option<u32>,
    state: S,
) -> Result<u32, NoMemory>
    ensures stands { IfOk result (λ n. StandsFor S.eq states.new.keys n state) }
    ensures keys { OnOk result (states.new.keys ≡ with_state S.eq states.old.keys state) }
{
    if let Some(near) = near {
        if let Some(other) = states.get_index(near as usize) {
            if state == *other {
                return Ok(near);
            }
        }
    }
    place(states, state)
}
