//! Laws of what is answered. Each function's contract is a law; nothing calls them.

ghost use Rattle.std.specs.Prelude.{◌≡◌, ℕ, List};
ghost use Rattle.pc_top.specs.declared.status.Status.{Status};
ghost use Rattle.pc_top.specs.DumpMeans.{DumpMeans};

/// A product text gets one answer of `dump`.
#[tactic(auto, using(crate::proofs::OnceLemmas::dumped_once))]
pub fn dump_answers_once()
    ensures { (text written other : List ℕ) (status beside : Status) → DumpMeans status text written → DumpMeans beside text other
        → (status ≡ beside) × (written ≡ other) }
{}
