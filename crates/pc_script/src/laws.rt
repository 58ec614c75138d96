//! Laws of the definitions. Each function's contract is a law; nothing calls them.

ghost use Rattle.std.specs.Prelude.{◌≡◌, ℕ, List, []};
ghost use Rattle.pc_calls.specs.History.{IsLegal};
ghost use Rattle.pc_script.specs.BikeScript.{bike_script, bike_items, bike_history};
ghost use Rattle.pc_script.specs.Script.{script_text};
ghost use Rattle.pc_script.specs.ShortScript.{short_script, short_items, short_history, short_text};
ghost use Rattle.pc_script.specs.ScriptHistory.{script_history, script_items, texts_after};

/// The calls of any script, with the enters and the leaves of its callers, are a legal history.
#[tactic(auto, using(crate::proofs::LegalScripts::script_is_legal))]
pub fn scripts_are_legal_histories()
    ensures { (bytes : List ℕ) → IsLegal (script_history bytes) }
{}

/// The text of a script is the answers to what its bytes say, each as it is after the history up to there.
#[tactic(auto, using(crate::proofs::ScriptTexts::text_is_of_history))]
pub fn scripts_answer_by_their_histories()
    ensures { (bytes : List ℕ) → script_text bytes ≡ texts_after [] (script_items bytes) }
{}

/// The worked example: what the lines of a visit to the bike say, and the history that it makes, with its caller's enter
/// and leave.
#[tactic(auto, using(crate::proofs::BikeScripts::bike_said, crate::proofs::BikeScripts::bike_recorded))]
pub fn bike_script_is_told()
    ensures items { script_items bike_script ≡ bike_items }
    ensures history { script_history bike_script ≡ bike_history }
{}

/// A shorter one, by evaluation: what the lines of a script say that opens a session where nothing was published, the
/// history that it makes, and what is answered.
#[tactic(auto, using(crate::proofs::ShortScripts::short_said, crate::proofs::ShortScripts::short_recorded, crate::proofs::ShortScripts::short_answered, crate::proofs::ShortScripts::short_written))]
pub fn short_script_is_told()
    ensures items { script_items short_script ≡ short_items }
    ensures history { script_history short_script ≡ short_history }
    ensures answers { texts_after [] short_items ≡ short_text }
    ensures text { script_text short_script ≡ short_text }
{}
