//! Laws of diagrams. Each function's contract is a law; nothing calls them.

ghost use Rattle.std.specs.Prelude.{◌≡◌, ◌≢◌, ◌≤◌, ◌↔◌, ℕ, List, [], ◌∷◌, ◌++◌, ◌+ℤ◌, ◌&&◌, length, take, drop, sum, slice_index, filter, Bool, true, Some, None};
ghost use Rattle.pc_diagram.specs.declared.diagram_fault.DiagramFault.TheVariants.{Shape, EdgeOut, Dead, Unreached, Twin, Order};
ghost use Rattle.pc_diagram.specs.declared.raw_diagram.RawDiagram.{RawDiagram};
ghost use Rattle.pc_diagram.specs.declared.choice.Choice.{Choice};
ghost use Rattle.pc_diagram.specs.declared.costs.CostPair.{CostPair};
ghost use Rattle.pc_diagram.specs.declared.which.Which.{Which};
ghost use Rattle.pc_diagram.specs.Best.{best};
ghost use Rattle.pc_diagram.specs.Bike.{bikes, bike_costs, pair};
ghost use Rattle.pc_diagram.specs.BikeDiagram.{bike_diagram, carbon, two_values, bike_out_of_order, bike_edge_out, bike_dead, bike_unreached, bike_misshapen, twins};
ghost use Rattle.pc_diagram.specs.Costs.{cost, cost_pair};
ghost use Rattle.pc_diagram.specs.Diagram.{IsCanonical};
ghost use Rattle.pc_diagram.specs.DiagramFaults.{first_fault};
ghost use Rattle.pc_diagram.specs.NodePaths.{agrees, heads, is_head, is_tail, tails, IsLeast};
ghost use Rattle.pc_diagram.specs.Paths.{has_word, words};
ghost use Rattle.pc_diagram.specs.Rests.{rest_count, size};
ghost use Rattle.pc_diagram.specs.Words.{is_word, all_words};

/// The worked example, by evaluation: the diagram of the bikes has their words and no fault, and what is told of tables
/// that differ from it in one thing.
pub fn bikes_have_a_diagram()
    ensures words { words bike_diagram ≡ bikes }
    ensures canonical { first_fault bike_diagram ≡ None }
    ensures shape { first_fault bike_misshapen ≡ Some (Shape 2 0) }
    ensures edge_out { first_fault bike_edge_out ≡ Some (EdgeOut 1 2) }
    ensures dead { first_fault bike_dead ≡ Some (Dead 2 1) }
    ensures unreached { first_fault bike_unreached ≡ Some (Unreached 2 1) }
    ensures twin { first_fault twins ≡ Some (Twin 1 1) }
    ensures order { first_fault bike_out_of_order ≡ Some (Order 2 0) }
{}

/// The worked example, by evaluation: what leads to nodes of the bikes' diagram and what leads on from them, with no choice
/// and with the third frame chosen.
pub fn bikes_have_paths()
    ensures root { heads bike_diagram [] 0 0 ≡ [] ∷ [] }
    ensures heads { heads bike_diagram [] 2 0 ≡ two_values 0 0 ∷ two_values 0 1 ∷ [] }
    ensures tails { tails bike_diagram [] 1 0 ≡ two_values 0 0 ∷ two_values 1 0 ∷ [] }
    ensures terminal { tails bike_diagram [] 3 0 ≡ [] ∷ [] }
    ensures whole { heads bike_diagram [] 3 0 ≡ bikes }
    ensures all { tails bike_diagram [] 0 0 ≡ bikes }
    ensures chosen { heads bike_diagram (carbon ∷ []) 2 1 ≡ two_values 2 1 ∷ [] }
    ensures shut { heads bike_diagram (carbon ∷ []) 1 0 ≡ [] }
    ensures rest { tails bike_diagram (carbon ∷ []) 1 2 ≡ tails bike_diagram [] 1 2 }
    ensures costs { cost_pair (drop 1 bike_costs) (two_values 1 0) ≡ pair 120 1 }
{}

/// The best of the words over some domains that pass a test is the cheapest of them, and of those that cost the same the one
/// that comes first by its values.
pub fn best_is_the_least_word()
    ensures { (costs : List (List CostPair)) (test : List ℕ → Bool) (domains word : List ℕ)
        → (best costs (filter test (all_words domains)) ≡ Some word) ↔ IsLeast costs test domains word }
{}

/// A word of a diagram that agrees with choices is, at each layer, a head and a tail of one node, and costs what both cost.
pub fn heads_and_tails_make_words()
    ensures words { (raw : RawDiagram) (choices : List Choice) (head tail : List ℕ) → length head ≤ length raw.domains
        → ((has_word raw (head ++ tail) && agrees choices 0 (head ++ tail)) ≡ true)
        ↔ (node : ℕ) × (is_head raw choices (length head) node head ≡ true) × (is_tail raw choices (length head) node tail ≡ true) }
    ensures costs { (costs : List (List CostPair)) (which : Which) (head tail : List ℕ)
        → cost costs which (head ++ tail) ≡ cost costs which head +ℤ cost (drop (length head) costs) which tail }
{}

/// Tables have no fault exactly where they are those of a canonical diagram.
pub fn canonical_tables_have_no_fault()
    ensures { (raw : RawDiagram) → (first_fault raw ≡ None) ↔ IsCanonical raw }
{}

/// Two canonical diagrams over the same domains that have the same words are equal.
pub fn equal_words_have_one_diagram()
    ensures { (a b : RawDiagram) → IsCanonical a → IsCanonical b → a.domains ≡ b.domains → words a ≡ words b → a ≡ b }
{}

/// The words of tables are words over their domains, and a canonical diagram has one.
pub fn words_are_over_the_domains()
    ensures over { (raw : RawDiagram) (word : List ℕ) → has_word raw word ≡ true → is_word raw.domains word ≡ true }
    ensures some { (raw : RawDiagram) → IsCanonical raw → words raw ≢ [] }
{}

/// A canonical diagram is the smallest one: each layer has as many nodes as its words have different non-empty rests
/// after beginnings of that length, so in all there are as many as the size of its set of words.
pub fn nodes_are_counted_by_rests()
    ensures layer { (raw : RawDiagram) → IsCanonical raw → (layer : ℕ) → layer ≤ length raw.domains
        → slice_index raw.sizes layer ≡ rest_count (has_word raw) (take layer raw.domains) (drop layer raw.domains) }
    ensures all { (raw : RawDiagram) → IsCanonical raw → sum raw.sizes ≡ size raw.domains (has_word raw) }
{}
