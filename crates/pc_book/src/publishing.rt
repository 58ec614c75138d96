//! A file becomes the next version.

ghost use Rattle.std.specs.Prelude.{◌≡◌, ℕ, ◌<◌, ◌^◌, map, Ok, IfOk, OnErr};
ghost use Rattle.pc_calls.specs.declared.call.Call.TheVariants.{Publish};
ghost use Rattle.pc_calls.specs.State.{State};
ghost use Rattle.pc_file.specs.Contents.{Contents};
ghost use Rattle.pc_book.specs.Own.{OwnPart};
ghost use Rattle.pc_book.specs.Sharing.{Brings, IsBuilt, IsSeen};
ghost use Rattle.pc_book.specs.Shelves.{shelved};

use crate::replying::{plain_head, refused};
use crate::shelf::Shelf;
use pc_base::NoMemory;
use pc_build::{BuildFault, SharedVersion, Version};
use pc_calls::{MOST_LIVE, Outcome, Reply};
use std::alloc::Global;

/// Puts the version of a file after the others, as the current one.
fn shelve(
    alloc: Global,
    shelves: &mut Vec<Shelf>,
    current: &mut u64,
    base: u64,
    version: Version,
) -> Result<Reply, NoMemory>
    requires room { current.old < 2 ^ 63 }
    ensures brings { IfOk result (λ reply. (file : Contents) → IsBuilt file (Ok version) → (state : State) (own : OwnPart) (entered present : ℕ) → IsSeen state own (map shelved shelves.old.items) entered present current.old
        → Brings (Publish base file) state own own reply (map shelved shelves.new.items) entered present current.new) }
    ensures kept { OnErr result ((shelves.new.items ≡ shelves.old.items) × (current.new ≡ current.old)) }
{
    if base != *current {
        return Ok(refused(alloc, 0, 0, Outcome::Stale { current: *current }));
    }
    if shelves.len() >= MOST_LIVE {
        return Ok(refused(alloc, 0, 0, Outcome::ShelvesFull));
    }
    let number = *current + 1;
    let version = SharedVersion::new(alloc, version)?;
    shelves.push(Shelf {
        number,
        version,
        pins: 0,
    })?;
    *current = number;
    Ok(Reply {
        head: plain_head(alloc, 0, number, Outcome::Done),
        shown: None,
    })
}

/// Makes what a file was compiled to the current version, or tells why it wasn't compiled.
pub(crate) fn shelve_built(
    alloc: Global,
    shelves: &mut Vec<Shelf>,
    current: &mut u64,
    base: u64,
    built: Result<Version, BuildFault>,
) -> Result<Reply, NoMemory>
    requires room { current.old < 2 ^ 63 }
    ensures brings { IfOk result (λ reply. (file : Contents) → IsBuilt file built → (state : State) (own : OwnPart) (entered present : ℕ) → IsSeen state own (map shelved shelves.old.items) entered present current.old
        → Brings (Publish base file) state own own reply (map shelved shelves.new.items) entered present current.new) }
    ensures kept { OnErr result ((shelves.new.items ≡ shelves.old.items) × (current.new ≡ current.old)) }
{
    match built {
        Ok(version) => shelve(alloc, shelves, current, base, version),
        Err(BuildFault::NodeLimit { rule, part }) => {
            Ok(refused(alloc, 0, 0, Outcome::NodeLimit { rule, part }))
        }
        Err(BuildFault::NoProduct) => Ok(refused(alloc, 0, 0, Outcome::NoProduct)),
        Err(BuildFault::NoMemory) => Err(NoMemory),
    }
}
