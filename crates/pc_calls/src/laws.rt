//! Laws of the definitions. Each function's contract is a law; nothing calls them.

ghost use Rattle.std.specs.Prelude.{◌≡◌, ℕ, ◌+◌, pos, codes, true, false, List, [], ◌∷◌, ◌++◌, length, Some, None, Ok, Err, All, IfSome};
ghost use Rattle.pc_diagram.specs.declared.side.Side.TheVariants.{Heads};
ghost use Rattle.pc_file.specs.Bike.{bike};
ghost use Rattle.pc_file.specs.Limits.{Contents};
ghost use Rattle.pc_calls.specs.declared.call.Call.{Call};
ghost use Rattle.pc_calls.specs.declared.dropped.Dropped.TheVariants.{Choice};
ghost use Rattle.pc_calls.specs.declared.entry.Entry.{Entry};
ghost use Rattle.pc_calls.specs.declared.outcome.Outcome.TheVariants.{Conflict, Lost, NoCost, NotBounded, TooTight};
ghost use Rattle.pc_calls.specs.BikeMoves.{carbon, loose_bike, small_bike, soon, soon_steel, steel, steel_led};
ghost use Rattle.pc_calls.specs.Carry.{moved_to};
ghost use Rattle.pc_calls.specs.Heads.{reply};
ghost use Rattle.pc_calls.specs.History.{IsLegal, made, state_after};
ghost use Rattle.pc_calls.specs.Kept.{IsKept};
ghost use Rattle.pc_calls.specs.LabelLimit.{first_limit};
ghost use Rattle.pc_calls.specs.LocalReply.{is_local};
ghost use Rattle.pc_calls.specs.Numbers.{entered_callers, numbers_from, opened_sessions, published_versions};
ghost use Rattle.pc_calls.specs.OwnedSessions.{rebases_of, sessions_of};
ghost use Rattle.pc_calls.specs.Selection.{bound, free, unbound};
ghost use Rattle.pc_calls.specs.Sound.{IsSound};
ghost use Rattle.pc_calls.specs.State.{OpenSession, State, current, file_of, numbered, opened_by, session_of};
ghost use Rattle.pc_calls.specs.Step.{after};

use crate::call::Call;
use crate::entry::Entry;
use crate::reply::Reply;
use pc_base::crosses_threads;
use pc_file::SharedFile;

/// The file of a version never changes, whatever is called after it was published.
#[tactic(auto, using(crate::proofs::OthersLaws::files_keep))]
pub fn versions_keep_their_files()
    ensures { (history entries : List Entry) (version : ℕ) (file : Contents)
        → file_of (state_after history) version ≡ Some file → file_of (state_after (history ++ entries)) version ≡ Some file }
{}

/// After a legal history the current version is live, where there is one, and so is the version of every open session; no
/// two open sessions have one owner and number.
pub fn sessions_are_at_live_versions()
    ensures { (history : List Entry) → IsLegal history → IsSound (state_after history) }
{}

/// A session that is open after a call was open before it, of the same owner, number and version; or its owner's rebase
/// moved it to that version; or the call opened it, at the current version. So its version stays where no rebase of it
/// is done.
pub fn sessions_move_by_their_owners()
    ensures call { (caller : ℕ) (state : State) (call : Call) → All (IsKept caller call state) (after caller call state).sessions }
    ensures calls { (history entries : List Entry) (owner number : ℕ) (session : OpenSession) → IsLegal (history ++ entries) → rebases_of owner number entries ≡ []
        → session_of (state_after history) owner number ≡ Some session
        → IfSome (session_of (state_after (history ++ entries)) owner number) (λ later. later.version ≡ session.version) }
{}

/// The numbers that a legal history gave to callers, to versions, and to the sessions of a caller are 1, 2, 3 and so on,
/// each once, as many as the state counts.
pub fn numbers_are_given_once()
    ensures callers { (history : List Entry) → IsLegal history → entered_callers history ≡ numbers_from 1 (length (state_after history).callers) }
    ensures versions { (history : List Entry) → IsLegal history → published_versions history ≡ numbers_from 1 (current (state_after history)) }
    ensures sessions { (owner : ℕ) (history : List Entry) → IsLegal history → opened_sessions owner history ≡ numbers_from 1 (opened_by (state_after history) owner) }
{}

/// Where a caller makes none of the calls that follow, its sessions, what is counted of it, and the reply to each call that
/// is a session's own are the same before and after them.
pub fn others_leave_a_caller_alone()
    ensures sessions { (history entries : List Entry) (caller : ℕ) → IsLegal (history ++ entries) → made entries caller ≡ []
        → sessions_of (state_after (history ++ entries)) caller ≡ sessions_of (state_after history) caller }
    ensures caller { (history entries : List Entry) (caller : ℕ) → IsLegal (history ++ entries) → made entries caller ≡ []
        → numbered (state_after (history ++ entries)).callers caller ≡ numbered (state_after history).callers caller }
    ensures replies { (history entries : List Entry) (caller : ℕ) → IsLegal (history ++ entries) → made entries caller ≡ []
        → (call : Call) → is_local call ≡ true → reply caller call (state_after (history ++ entries)) ≡ reply caller call (state_after history) }
{}

/// The worked example, by evaluation: the bike may be bound to two days, and to one it may not, since its least are two; it has
/// no cost of another name, and a bound that isn't set can't be taken back. Three pairs of costs would be too many from the
/// frame on.
pub fn bikes_are_bound()
    ensures two { bound (codes "days") (pos 2) bike free ≡ Ok (record { choices = []; bounds = record { first = None; second = Some (pos 2) } }) }
    ensures one { bound (codes "days") (pos 1) bike free ≡ Err (TooTight (pos 2)) }
    ensures unknown { bound (codes "weight") (pos 5) bike free ≡ Err NoCost }
    ensures unset { unbound (codes "price") bike free ≡ Err NotBounded }
    ensures limit { first_limit 3 bike [] ≡ Some (Heads, 1) }
{}

/// The worked example, by evaluation. A session that asks for carbon can't move to a bike that has none; one that asks for
/// steel and a light, from before the rules, conflicts with them. Dropping what doesn't fit, that session keeps the steel and
/// drops the light; and one that asks for steel within two days keeps the bound, which comes first, and drops the frame.
#[tactic(auto, using(crate::proofs::BikeMoves::carbon_is_lost, crate::proofs::BikeMoves::steel_with_led_conflicts, crate::proofs::BikeMoves::led_is_dropped, crate::proofs::BikeMoves::frame_is_dropped))]
pub fn bikes_move()
    ensures lost { moved_to false bike small_bike carbon ≡ Err (Lost (codes "carbon")) }
    ensures conflict { moved_to false loose_bike bike steel_led ≡ Err Conflict }
    ensures light { moved_to true loose_bike bike steel_led ≡ Ok (record { selection = steel; dropped = Choice (codes "light") ∷ [] }) }
    ensures frame { moved_to true loose_bike bike soon_steel ≡ Ok (record { selection = soon; dropped = Choice (codes "frame") ∷ [] }) }
{}

/// Files, calls, entries and replies may be sent to other threads and shared with them.
pub fn calls_cross_threads() {
    crosses_threads::<SharedFile>();
    crosses_threads::<Call>();
    crosses_threads::<Entry>();
    crosses_threads::<Reply>();
}
