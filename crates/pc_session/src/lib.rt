//! A shopper's session over a compiled version: its choices and bounds, and the listing of what still leads to a product. What
//! each call answers and leaves is that of the definition of the calls, and after a refusal or want of memory the session is
//! as it was. Some product always fits, and the pairs of costs that are kept stay within their limit. `Session::rebased` is the
//! session at another version of its product, with what it asks carried over by names.
#![tactic(auto)]

mod answer;
mod boards;
mod bounding;
mod carrying;
mod choosing;
pub mod laws;
mod move_fault;
mod moving;
mod naming;
mod next;
mod rebased;
mod rebasing;
mod replay;
mod replaying;
mod session;

pub use answer::Answer;
pub use rebased::Rebased;
pub use session::Session;
