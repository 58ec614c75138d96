//! Joins of two fronts over an edge.

ghost use Rattle.std.specs.Prelude.{◌≡◌, ◌<◌, ◌≤◌, ◌+ℤ◌, ℕ, All, length, map, true, false, slice_index_or};
ghost use Rattle.pc_diagram.specs.Bounds.{allows};
ghost use Rattle.pc_diagram.specs.Costs.{IsPrice, IsPricePair, IsSum};
ghost use Rattle.pc_pareto.specs.Front.{Falls};
ghost use Rattle.pc_pareto.specs.Items.{pair_of};
ghost use Rattle.pc_pareto.specs.Fronts.{no_item};
ghost use Rattle.pc_domains.specs.Joins.{IsLeastJoin, IsSumPair, is_less, joined, lesser};

use pc_diagram::{Bounds, CostPair, Ranked};
use pc_pareto::FrontItem;

/// An item of each of two fronts, by their places; what both and the value between them cost; and the rank of the head.
#[derive(Clone, Copy, Debug)]
pub struct Join {
    pub head: usize,
    pub tail: usize,
    pub ranked: Ranked,
}

/// The least join of two fronts that bounds allow, if they allow any: both are gone through once, for with a dearer head
/// the bound on the second cost reaches a cheaper tail.
pub fn least_join(
    heads: &[FrontItem],
    tails: &[FrontItem],
    price: CostPair,
    bounds: &Bounds,
) -> Option<Join>
    requires heads { Falls (map pair_of heads.now) }
    requires tails { Falls (map pair_of tails.now) }
    requires head_sums { All (λ item. IsSumPair (pair_of item)) heads.now }
    requires tail_sums { All (λ item. IsSumPair (pair_of item)) tails.now }
    requires price { IsPricePair price }
    ensures { IsLeastJoin heads.now tails.now price bounds.now (length heads.now) result }
{
    let mut least: Option<Join> = None;
    let mut place = tails.len();
    for (number, head) in heads.iter().enumerate() {
        place = first_within(tails, place, head.second, price.second, bounds.second);
        if place < tails.len() {
            least = lesser(
                least,
                join_of(number, head, place, &tails[place], price),
                bounds.first,
            );
        }
    }
    least
}

/// The first place of a front with which the second costs keep a bound, or its length where they do with none; all places
/// from this one on keep it.
fn first_within(tails: &[FrontItem], from: usize, head: i64, price: i64, most: Option<i64>) -> usize
    requires inside { from ≤ length tails.now }
    requires falls { Falls (map pair_of tails.now) }
    requires sums { All (λ item. IsSumPair (pair_of item)) tails.now }
    requires head { IsSum head }
    requires price { IsPrice price }
    requires within { (k : ℕ) → from ≤ k → k < length tails.now → allows most (head +ℤ (price +ℤ (slice_index_or tails.now k no_item).second)) ≡ true }
    ensures inside { result ≤ from }
    ensures within { (k : ℕ) → result ≤ k → k < length tails.now → allows most (head +ℤ (price +ℤ (slice_index_or tails.now k no_item).second)) ≡ true }
    ensures before { (k : ℕ) → k < result → allows most (head +ℤ (price +ℤ (slice_index_or tails.now k no_item).second)) ≡ false }
{
    let mut place = from;
    while place > 0 && allows(most, sum(head, price, tails[place - 1].second)) {
        place -= 1;
    }
    place
}

/// Whether a bound, if it is set, is at least a cost.
pub(crate) fn allows(most: Option<i64>, cost: i64) -> bool
    ensures { result ≡ allows most cost }
{
    match most {
        Some(most) => cost <= most,
        None => true,
    }
}

/// The join of two items.
fn join_of(head: usize, item: &FrontItem, tail: usize, other: &FrontItem, price: CostPair) -> Join
    requires item { IsSumPair (pair_of item.now) }
    requires other { IsSumPair (pair_of other.now) }
    requires price { IsPricePair price }
    ensures { result ≡ record { head = head; tail = tail; ranked = joined price item.now other.now } }
{
    Join {
        head,
        tail,
        ranked: Ranked {
            pair: CostPair {
                first: sum(item.first, price.first, other.first),
                second: sum(item.second, price.second, other.second),
            },
            rank: item.back.rank,
        },
    }
}

/// What a head, a value and a tail cost by one cost.
pub(crate) fn sum(head: i64, price: i64, tail: i64) -> i64
    requires head { IsSum head }
    requires price { IsPrice price }
    requires tail { IsSum tail }
    ensures { result ≡ head +ℤ (price +ℤ tail) }
{
    head + (price + tail)
}

/// The lesser of two joins; the one before, where the other is past a bound on the first cost.
fn lesser(least: Option<Join>, join: Join, most: Option<i64>) -> Option<Join>
    ensures { result ≡ lesser least join most }
{
    if !allows(most, join.ranked.pair.first) {
        return least;
    }
    match least {
        Some(before) if !is_less(&join.ranked, &before.ranked) => least,
        _ => Some(join),
    }
}

/// Whether one is less by first cost, or equal in that and less by second cost, or equal in both and less by rank.
pub(crate) fn is_less(ranked: &Ranked, other: &Ranked) -> bool
    ensures { result ≡ is_less ranked.now other.now }
{
    let (pair, beside) = (&ranked.pair, &other.pair);
    pair.first < beside.first
        || pair.first == beside.first
            && (pair.second < beside.second
                || pair.second == beside.second && ranked.rank < other.rank)
}
