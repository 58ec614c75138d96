//! Laws of the sets of a store. Each function's contract is a law; nothing calls them.

ghost use Rattle.std.specs.Prelude.{◌≡◌, ◌↔◌, ℕ, List, true, drop};
ghost use Rattle.pc_diagram.specs.Words.{is_word};
ghost use Rattle.pc_store.specs.declared.id.Id.{Id};
ghost use Rattle.pc_store.specs.declared.store.Store.{Store};
ghost use Rattle.pc_store.specs.Sets.{domains_of, layer_of, IsId, IsIdAt, has, SameWords};

/// Any two ids of one layer of a store are equal exactly where their sets are.
pub fn sets_stand_once()
    ensures { (store : Store) (a b : Id) → IsId store a → IsIdAt store (layer_of a) b
        → (a ≡ b) ↔ SameWords store a b }
{}

/// The words of each set of a store are words over the variables from the set's layer on.
pub fn words_are_over_the_domains()
    ensures { (store : Store) (layer : ℕ) (id : Id) → IsIdAt store layer id → (word : List ℕ)
        → has store id word ≡ true → is_word (drop layer (domains_of store)) word ≡ true }
{}
