//! Laws of sessions. Each function's contract, or that it is one, is a law; nothing calls them.

use crate::answer::Answer;
use crate::rebased::Rebased;
use crate::session::Session;
use pc_base::crosses_threads;

/// A session, an answer and what a move gives may be sent to other threads and shared with them.
pub fn sessions_cross_threads() {
    crosses_threads::<Session>();
    crosses_threads::<Answer>();
    crosses_threads::<Rebased>();
}
