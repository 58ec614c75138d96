//! Laws of labels. Each function's contract is a law; nothing calls them.

ghost use Rattle.std.specs.Prelude.{◌≡◌, ◌↔◌, ◌<◌, ℕ, List, Option, None, IfSome, slice_index_or};
ghost use Rattle.pc_diagram.specs.declared.costs.CostPair.{CostPair};
ghost use Rattle.pc_labels.specs.Kept.{Kept};
ghost use Rattle.pc_labels.specs.Labels.{IsLabelled};

/// Within a layer the ranks of two nodes are equal exactly where the paths that are kept of them are.
pub fn ranks_tell_paths()
    ensures { (costs : List (List CostPair)) (paths : ℕ → List (List ℕ)) (size : ℕ) (row : List (Option Kept))
        → IsLabelled costs paths size row → (node other : ℕ) → node < size → other < size
        → IfSome (slice_index_or row node None) (λ kept. IfSome (slice_index_or row other None)
        (λ beside. (kept.rank ≡ beside.rank) ↔ (kept.path ≡ beside.path))) }
{}
