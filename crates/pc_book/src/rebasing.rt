//! A session moves to another live version.

ghost use Rattle.std.specs.Prelude.{◌≡◌, ℕ, ◌≤◌, ◌<◌, ◌^◌, Bool, length, map, All, IfOk, OnErr};
ghost use Rattle.pc_calls.specs.declared.call.Call.TheVariants.{Rebase};
ghost use Rattle.pc_calls.specs.State.{State};
ghost use Rattle.pc_book.specs.Rebases.{IsMadeAt, visit_version};
ghost use Rattle.pc_book.specs.Sharing.{Brings, IsSeen};
ghost use Rattle.pc_book.specs.Shelves.{one_at, shelved};

use crate::own::Own;
use crate::shelf::{Shelf, pin, place, unpin};
use pc_base::NoMemory;
use pc_calls::{Head, Reply};
use pc_session::Rebased;

/// A session moves to another version, if that is live, with what was made of it there: the reply, and its head once more.
pub(crate) fn move_session(
    shelves: &mut [Shelf],
    own: &mut Own,
    session: u64,
    version: u64,
    made: Option<Rebased>,
) -> Result<(Reply, Head), NoMemory>
    requires pins { All (λ shelf. shelf.pins < 2 ^ 63) shelves.old }
    requires enough { (number : ℕ) → All (λ shelf. one_at (visit_version number own.old.sessions) shelf.number ≤ shelf.pins) shelves.old }
    ensures brings { IfOk result (λ p. (dropping : Bool) (state : State) (entered present now : ℕ) → IsSeen state own.old (map shelved shelves.old) entered present now → IsMadeAt state own.old session version dropping made
        → Brings (Rebase session version dropping) state own.old own.new p.0 (map shelved shelves.new) entered present now) }
    ensures head { IfOk result (λ p. p.1 ≡ p.0.head) }
    ensures count { length shelves.new ≡ length shelves.old }
    ensures kept { OnErr result ((shelves.new ≡ shelves.old) × (own.new ≡ own.old)) }
{
    let live = place(shelves, version).is_some();
    let (reply, head, left) = own.rebase(session, version, live, made)?;
    if let Some(left) = left {
        unpin(shelves, left);
        pin(shelves, version);
    }
    Ok((reply, head))
}
