//! What becomes of a call.

use pc_diagram::Side;
use pc_names::Name;

/// A call is done, or refused for the first reason that stands. The refusals are in the order of their codes, from
/// 1 on.
#[derive(Clone, Copy, Debug, PartialEq, Eq)]
pub enum Outcome {
    Done,
    /// The caller has no open session of that number.
    NoSession,
    /// The session's version has no such variable.
    NoVariable,
    /// The variable has no such value.
    NoValue,
    /// The value isn't in the session's listing.
    NotListed,
    /// The variable has no choice.
    NotChosen,
    /// The session's version has no such cost.
    NoCost,
    /// The cost has no bound.
    NotBounded,
    /// No product fits with this bound; the least of that cost over the products that fit without it.
    TooTight { least: i64 },
    /// The labels of a side are too many, from this layer on.
    LabelLimit { side: Side, layer: u32 },
    /// The version isn't live.
    NotLive { version: u64 },
    /// The session is at that version.
    SameVersion,
    /// That version lacks a name that the session uses.
    Lost { name: Name },
    /// No product of that version fits the session's choices and bounds.
    Conflict,
    /// The base isn't the current version, which is 0 where there is none.
    Stale { current: u64 },
    /// As many versions are live as may be.
    ShelvesFull,
    /// The set of this part of a rule has too many nodes, both counted from 1.
    NodeLimit { rule: u32, part: u32 },
    /// The file has no product.
    NoProduct,
    /// The version is the current one.
    IsCurrent,
    /// Open sessions are at the version, so many.
    Pinned { pins: u64 },
    /// The caller has as many open sessions as it may.
    SessionsFull,
    /// Nothing was published.
    NoVersion,
}
