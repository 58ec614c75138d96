//! The live versions, each with the number of open sessions at it.

ghost use Rattle.std.specs.Prelude.{◌≡◌, ◌≤◌, ◌<◌, ◌+◌, ◌-◌, ◌^◌, find, map, position, All};
ghost use Rattle.pc_book.specs.Shelves.{holds, one_at, repinned, retire_told, shelves_after, visits_at};

use pc_build::SharedVersion;
use pc_calls::Outcome;
use pc_session::Session;

/// A live version with its number, and how many open sessions are at it.
#[derive(Debug, Drop)]
pub struct Shelf {
    pub number: u64,
    pub version: SharedVersion,
    pub pins: u64,
}

/// One more session is at a version.
pub fn pin(shelves: &mut [Shelf], version: u64)
    requires { All (λ shelf. shelf.pins < 2 ^ 63) shelves.old }
    ensures { shelves.new ≡ map (repinned (λ number pins. pins + one_at version number)) shelves.old }
{
    for shelf in shelves.iter_mut() {
        shelf.pins += u64::from(shelf.number == version);
    }
}

/// One session less is at a version.
pub fn unpin(shelves: &mut [Shelf], version: u64)
    requires { All (λ shelf. one_at version shelf.number ≤ shelf.pins) shelves.old }
    ensures { shelves.new ≡ map (repinned (λ number pins. pins - one_at version number)) shelves.old }
{
    for shelf in shelves.iter_mut() {
        shelf.pins -= u64::from(shelf.number == version);
    }
}

/// How many of a caller's sessions are at a version.
fn visits_at(sessions: &[Session], version: u64) -> u64
    ensures { result ≡ visits_at sessions.now version }
{
    sessions
        .iter()
        .filter(|session| session.version() == version)
        .count() as u64
}

/// A caller's sessions are at their versions no more.
pub fn unpin_all(shelves: &mut [Shelf], sessions: &[Session])
    requires { All (λ shelf. visits_at sessions.now shelf.number ≤ shelf.pins) shelves.old }
    ensures { shelves.new ≡ map (repinned (λ number pins. pins - visits_at sessions.now number)) shelves.old }
{
    for shelf in shelves.iter_mut() {
        shelf.pins -= visits_at(sessions, shelf.number);
    }
}

/// Where a version stands.
pub fn place(shelves: &[Shelf], version: u64) -> Option<usize>
    ensures { result ≡ position (holds version) shelves.now }
{
    shelves.iter().position(|shelf| shelf.number == version)
}

/// A version that isn't current and has no session goes; else the reason why it stays.
pub fn retire(shelves: &mut Vec<Shelf>, version: u64, current: u64) -> Outcome
    ensures outcome { result ≡ retire_told version current (find (holds version) shelves.old.items) }
    ensures shelves { shelves.new.items ≡ shelves_after version result shelves.old.items }
{
    let Some(place) = place(shelves.as_slice(), version) else {
        return Outcome::NotLive { version };
    };
    if version == current {
        return Outcome::IsCurrent;
    }
    let pins = shelves[place].pins;
    if pins > 0 {
        return Outcome::Pinned { pins };
    }
    shelves.remove(place);
    Outcome::Done
}
