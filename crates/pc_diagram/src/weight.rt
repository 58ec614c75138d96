//! Weights of paths.

ghost use Rattle.std.specs.Prelude.{◌≡◌, ◌≢◌, ◌<◌, ◌↔◌, ◌*◌, ◌%◌, pos, ◌+ℤ◌, ◌-ℤ◌, Some, None, IsTrue, IfSome, option_map};
ghost use Rattle.pc_diagram.specs.Costs.{IsSum};
ghost use Rattle.pc_diagram.specs.Weight.{IsInReach, half_count, lifted, second_count, rank_count, ranked_number, ranked_of};

use crate::costs::CostPair;
use std::marker::Model;

/// How many ranks there are.
const RANKS: i128 = 4_503_599_627_370_496;

/// For how many second costs there is place, and half of that, for those below 0.
const SECONDS: i128 = 137_438_953_472;

const HALF: i128 = 68_719_476_736;

/// The same for numbers with nothing below 0.
const LIFTED_RANKS: u128 = 4_503_599_627_370_496;

const LIFTED_SECONDS: u128 = 137_438_953_472;

/// Stands for no path: more than the number of any path.
const NO_PATH: i128 = 85_070_591_730_234_615_865_843_651_857_942_052_864;

/// The two costs of a path, and its rank among the paths that it is compared with: a rank is below 2^52.
#[derive(Clone, Copy, Debug, PartialEq, Eq)]
pub struct Ranked {
    pub pair: CostPair,
    pub rank: u64,
}

/// The two costs of a path and its rank among others, or that there is no path. It is one number, whose order is that by
/// first cost, then by second cost, then by rank, with no path last: so the lesser of two is told by one comparison, and
/// adding up weights adds up costs and ranks.
#[derive(Clone, Copy, Debug)]
pub struct Weight {
    number: i128,
}

impl Model for Weight {
    ghost use Rattle.std.specs.Prelude.{Option};
    ghost use Rattle.pc_diagram.specs.declared.weight.Ranked.{Ranked};
    ghost use Rattle.pc_diagram.specs.Weight.{IsWeight, weight_of, weight_number};

    ghost Value = { Option Ranked };

    ghost view = { λ w. weight_of w.number };

    ghost invariant = { λ w. IsWeight w.number };

    ghost inverse = { λ weight. record { number = weight_number weight } };
}

impl Weight {
    ghost use Rattle.pc_diagram.specs.Weight.{IsRanked, is_less, plus, plus_ranked, with_rank, rank_count};

    /// No path.
    pub fn none() -> Weight
        ensures { result ≡ None }
    {
        Weight { number: NO_PATH }
    }

    /// The weight of a path.
    pub fn new(pair: CostPair, rank: u64) -> Weight
        requires first { IsSum pair.first }
        requires second { IsSum pair.second }
        requires rank { rank < rank_count }
        ensures { result ≡ Some (record { pair = pair; rank = rank }) }
    {
        Weight {
            number: packed(pair.first, pair.second, rank),
        }
    }

    /// Whether there is no path.
    pub fn is_none(&self) -> bool
        ensures { IsTrue result ↔ (self.now ≡ None) }
    {
        self.number >= NO_PATH
    }

    /// The two costs and the rank of the path, if there is one.
    pub fn ranked(&self) -> Option<Ranked>
        ensures { result ≡ self.now }
    {
        if self.is_none() {
            return None;
        }
        Some(unpacked(self.number))
    }

    /// Whether this is less by first cost, or equal in that and less by second cost, or equal in both and less by rank. Any
    /// path is less than none.
    pub fn is_less_than(&self, other: &Weight) -> bool
        ensures { result ≡ is_less self.now other.now }
    {
        self.number < other.number
    }

    /// The costs and the ranks of both added up; no path where there is none on either side.
    pub fn plus(&self, other: &Weight) -> Weight
        requires { IfSome self.now (λ a. IfSome other.now (λ b. IsRanked (plus_ranked a b))) }
        ensures { result ≡ plus self.now other.now }
    {
        if self.is_none() || other.is_none() {
            return Weight::none();
        }
        Weight {
            number: sum(self.number, other.number),
        }
    }

    /// The same where the other is known to be the weight of a path, and isn't tested: for a pass that adds a few weights to many.
    pub fn plus_path(&self, path: &Weight) -> Weight
        requires some { path.now ≢ None }
        requires range { IfSome self.now (λ a. IfSome path.now (λ b. IsRanked (plus_ranked a b))) }
        ensures { result ≡ plus self.now path.now }
    {
        if self.is_none() {
            return Weight::none();
        }
        Weight {
            number: sum(self.number, path.number),
        }
    }

    /// The same costs with another rank; no path where there is none.
    pub fn with_rank(&self, rank: u64) -> Weight
        requires { rank < rank_count }
        ensures { result ≡ option_map (with_rank rank) self.now }
    {
        if self.is_none() {
            return Weight::none();
        }
        Weight {
            number: ranked_anew(self.number, rank),
        }
    }
}

/// The number of a path.
fn packed(first: i64, second: i64, rank: u64) -> i128
    requires first { IsSum first }
    requires second { IsSum second }
    requires rank { rank < rank_count }
    ensures { result ≡ ranked_number (record { pair = record { first = first; second = second }; rank = rank }) }
{
    (first as i128 * SECONDS + second as i128) * RANKS + rank as i128
}

/// The number of a path with half of the places for either cost added to it, so that no part is below 0.
fn lifted(number: i128) -> i128
    requires { IsInReach number }
    ensures { result ≡ pos (lifted number) }
{
    number + (HALF * SECONDS + HALF) * RANKS
}

/// The path that a number stands for.
fn unpacked(number: i128) -> Ranked
    requires { IsInReach number }
    ensures { result ≡ ranked_of (lifted number) }
{
    let lifted = lifted(number) as u128;
    Ranked {
        pair: CostPair {
            first: lowered(lifted / LIFTED_RANKS / LIFTED_SECONDS),
            second: lowered(lifted / LIFTED_RANKS % LIFTED_SECONDS),
        },
        rank: (lifted % LIFTED_RANKS) as u64,
    }
}

/// A cost to which half of the places had been added.
fn lowered(places: u128) -> i64
    requires { places < 2 * second_count }
    ensures { result ≡ pos places -ℤ pos half_count }
{
    places as i64 - HALF as i64
}

/// Two numbers of paths added up.
fn sum(a: i128, b: i128) -> i128
    requires a { IsInReach a }
    requires b { IsInReach b }
    ensures { result ≡ a +ℤ b }
{
    a + b
}

/// The number of a path with another rank.
fn ranked_anew(number: i128, rank: u64) -> i128
    requires number { IsInReach number }
    requires rank { rank < rank_count }
    ensures { result ≡ number -ℤ pos (lifted number % rank_count) +ℤ pos rank }
{
    let own = lifted(number) as u128 % LIFTED_RANKS;
    number - own as i128 + rank as i128
}
