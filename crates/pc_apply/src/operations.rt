//! The operations on sets of whole words.

ghost use Rattle.std.specs.Prelude.{◌≡◌, ℕ, List, ◌&&◌, ◌||◌, not as negated, All, IfOk};
ghost use Rattle.pc_diagram.specs.Words.{is_word};
ghost use Rattle.pc_store.specs.Sets.{domains_of, IsIdAt, has, Keeps};
ghost use Rattle.pc_apply.specs.Counting.{is_within, AreNodes};
ghost use Rattle.pc_apply.specs.Pairs.{holds};

use crate::lists::Lists;
use crate::pair::{Operation, Pair};
use crate::pair_product::sets_of_pairs;
use crate::quota::Quota;
use crate::quota_product::sets_of_quotas;
use pc_base::NoMemory;
use pc_store::{Id, Node, Store};
use std::alloc::Global;

/// The words in both sets of the first layer. Want of memory leaves the store as it was but for more nodes.
pub fn and(store: &mut Store, a: Id, b: Id) -> Result<Id, NoMemory>
    requires first { IsIdAt store.old 0 a }
    requires second { IsIdAt store.old 0 b }
    ensures is_id { IfOk result (IsIdAt store.new 0) }
    ensures set { IfOk result (λ id. (word : List ℕ) → has store.new id word ≡ (has store.old a word && has store.old b word)) }
    ensures keeps { Keeps store.old store.new }
{
    combine(store, Operation::And, a, b)
}

/// The words in either set of the first layer, or in both. Want of memory leaves the store as it was but for more
/// nodes.
pub fn or(store: &mut Store, a: Id, b: Id) -> Result<Id, NoMemory>
    requires first { IsIdAt store.old 0 a }
    requires second { IsIdAt store.old 0 b }
    ensures is_id { IfOk result (IsIdAt store.new 0) }
    ensures set { IfOk result (λ id. (word : List ℕ) → has store.new id word ≡ (has store.old a word || has store.old b word)) }
    ensures keeps { Keeps store.old store.new }
{
    combine(store, Operation::Or, a, b)
}

/// The words over the domains that aren't in the set, which is of the first layer. Want of memory leaves the store as
/// it was but for more nodes.
pub fn not(store: &mut Store, a: Id) -> Result<Id, NoMemory>
    requires { IsIdAt store.old 0 a }
    ensures is_id { IfOk result (IsIdAt store.new 0) }
    ensures set { IfOk result (λ id. (word : List ℕ) → has store.new id word ≡ (is_word (domains_of store.old) word && negated (has store.old a word))) }
    ensures keeps { Keeps store.old store.new }
{
    let all = store.full(0);
    combine(store, Operation::Without, all, a)
}

/// The words over the domains that are in at most so many of the members, which are of the first layer. A set that
/// stands twice among them counts twice. Want of memory leaves the store as it was but for more nodes.
pub fn at_most(store: &mut Store, most: u32, members: &[Id]) -> Result<Id, NoMemory>
    requires { All (IsIdAt store.old 0) members.now }
    ensures is_id { IfOk result (IsIdAt store.new 0) }
    ensures set { IfOk result (λ id. (word : List ℕ) → has store.new id word ≡ (is_word (domains_of store.old) word && is_within store.old most members.now word)) }
    ensures keeps { Keeps store.old store.new }
{
    let alloc = store.allocator();
    let mut lists = Lists::new(alloc);
    let nodes = nodes_of(alloc, members)?;
    let list = lists.place(alloc, nodes.as_slice())?;
    let quota = Quota { most, list };
    let ids = sets_of_quotas(alloc, store, 0, &lists, &[Some(quota)])?;
    Ok(ids[0])
}

/// The words that an operation asks for of two sets.
fn combine(store: &mut Store, operation: Operation, left: Id, right: Id) -> Result<Id, NoMemory>
    requires left { IsIdAt store.old 0 left }
    requires right { IsIdAt store.old 0 right }
    ensures is_id { IfOk result (IsIdAt store.new 0) }
    ensures set { IfOk result (λ id. (word : List ℕ) → has store.new id word ≡ holds operation (has store.old left word) (has store.old right word)) }
    ensures keeps { Keeps store.old store.new }
{
    let alloc = store.allocator();
    let pair = Pair {
        left: left.node(),
        right: right.node(),
    };
    let ids = sets_of_pairs(alloc, store, 0, operation, &[pair])?;
    Ok(ids[0])
}

/// The sets without their layer.
fn nodes_of(alloc: Global, sets: &[Id]) -> Result<Vec<Node>, NoMemory>
    ensures { IfOk result (λ nodes. AreNodes sets.now nodes.items) }
{
    let mut nodes = Vec::with_capacity(alloc, sets.len())?;
    for set in sets {
        nodes.push(set.node())?;
    }
    Ok(nodes)
}
