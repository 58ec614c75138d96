//! What a session answers.

use pc_calls::Outcome;
use pc_diagram::Listing;

/// The outcome of a session's call, with the listing after it where the call was done.
#[derive(Debug, Drop)]
pub struct Answer {
    pub outcome: Outcome,
    pub listing: Option<Listing>,
}

impl Answer {
    ghost use Rattle.std.specs.Prelude.{◌≡◌, Ok, Err};
    ghost use Rattle.pc_file.specs.Limits.{Contents};
    ghost use Rattle.pc_session.specs.declared.answer.Answer as declared;

    /// The call was done, and this is the listing after it.
    pub(crate) fn done(listing: Listing) -> Answer
        ensures { result ≡ record { outcome = Outcome.Done; listing = Some listing } }
    {
        Answer {
            outcome: Outcome::Done,
            listing: Some(listing),
        }
    }

    /// The call was refused.
    pub(crate) fn refused(refusal: Outcome) -> Answer
        ensures { result ≡ record { outcome = refusal; listing = None } }
    {
        Answer {
            outcome: refusal,
            listing: None,
        }
    }
}
