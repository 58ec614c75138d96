//! A caller's next session is opened at the current version.

ghost use Rattle.std.specs.Prelude.{◌≡◌, ℕ, ◌<◌, ◌^◌, length, map, All, IfOk, OnErr};
ghost use Rattle.pc_calls.specs.declared.call.Call.TheVariants.{Open};
ghost use Rattle.pc_calls.specs.State.{State};
ghost use Rattle.pc_book.specs.Sharing.{Brings, IsSeen};
ghost use Rattle.pc_book.specs.Shelves.{shelved};

use crate::own::Own;
use crate::replying::refused;
use crate::shelf::{Shelf, pin};
use pc_base::NoMemory;
use pc_calls::{MOST_SESSIONS, Outcome, Reply};
use std::alloc::Global;

/// Opens a session at the last live version, which is the current one.
pub(crate) fn open_at_last(
    alloc: Global,
    shelves: &mut [Shelf],
    own: &mut Own,
) -> Result<Reply, NoMemory>
    requires pins { All (λ shelf. shelf.pins < 2 ^ 63) shelves.old }
    requires room { own.old.opened < 2 ^ 63 }
    ensures brings { IfOk result (λ reply. (state : State) (entered present now : ℕ) → IsSeen state own.old (map shelved shelves.old) entered present now
        → Brings Open state own.old own.new reply (map shelved shelves.new) entered present now) }
    ensures count { length shelves.new ≡ length shelves.old }
    ensures kept { OnErr result ((shelves.new ≡ shelves.old) × (own.new ≡ own.old)) }
{
    let Some(shelf) = shelves.last() else {
        return Ok(refused(alloc, 0, 0, Outcome::NoVersion));
    };
    if own.count() >= MOST_SESSIONS {
        return Ok(refused(alloc, 0, 0, Outcome::SessionsFull));
    }
    let number = shelf.number;
    let version = shelf.version.share()?;
    let reply = own.open(number, version)?;
    pin(shelves, number);
    Ok(reply)
}
