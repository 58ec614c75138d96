//! Laws of the definitions. Each function's contract is a law; nothing calls them.

ghost use Rattle.std.specs.Prelude.{◌≡◌, ◌≢◌, ◌<◌, ◌↔◌, ℕ, pos, List, [], ◌∷◌, ◌++◌, length, map, filter, All, Some, None, is_some, false, not, ◌&&◌, ◌||◌};
ghost use Rattle.std.specs.List.{range_with_len};
ghost use Rattle.pc_diagram.specs.declared.bounds.Bounds.{Bounds};
ghost use Rattle.pc_diagram.specs.declared.choice.Choice.{Choice};
ghost use Rattle.pc_diagram.specs.declared.costs.CostPair.{CostPair};
ghost use Rattle.pc_diagram.specs.declared.which.Which.{Which};
ghost use Rattle.pc_diagram.specs.declared.which.Which.TheVariants.{First, Second};
ghost use Rattle.pc_diagram.specs.Bounds.{no_bounds};
ghost use Rattle.pc_diagram.specs.Choices.{is_chosen, value_of, without};
ghost use Rattle.pc_diagram.specs.Costs.{cost, IsPriced, IsSum};
ghost use Rattle.pc_diagram.specs.Best.{best, is_cheaper_word, IsFirstUnbeaten};
ghost use Rattle.pc_diagram.specs.Fitting.{takes, fitting};
ghost use Rattle.pc_diagram.specs.Listing.{listing, listing_of, value_count, is_valid, IsCheapestTaking};
ghost use Rattle.pc_diagram.specs.Rests.{size};
ghost use Rattle.pc_diagram.specs.Bike.{bike_costs, bikes, three, alloy, two_days, open_listing, two_days_listing, alloy_listing};

pub use crate::diagram_laws::{
    best_is_the_least_word, bikes_have_a_diagram, bikes_have_paths, canonical_tables_have_no_fault,
    equal_words_have_one_diagram, heads_and_tails_make_words, nodes_are_counted_by_rests,
    words_are_over_the_domains,
};

/// The worked example, by evaluation: what is listed of the bikes with no bound, of at most two days, and with the
/// second frame chosen, and what each definition gives on the way.
pub fn bikes_are_listed()
    ensures price { cost bike_costs First (three 2 1 0) ≡ pos 1020 }
    ensures days { cost bike_costs Second (three 2 1 0) ≡ pos 6 }
    ensures fit { fitting bike_costs bikes [] two_days ≡ three 1 0 0 ∷ three 1 1 0 ∷ [] }
    ensures least { best bike_costs bikes ≡ Some (three 0 0 0) }
    ensures openly { listing bike_costs bikes [] no_bounds ≡ open_listing }
    ensures bounded { listing bike_costs bikes [] two_days ≡ two_days_listing }
    ensures chosen { listing bike_costs bikes (alloy ∷ []) no_bounds ≡ alloy_listing }
{}

/// The size of sets of words over two variables of two values, by evaluation: those whose first value is 0, those whose
/// second is, those in both, in either, not in the first, and none.
pub fn sizes_over_two_variables()
    ensures first { size (2 ∷ 2 ∷ []) (λ word. takes word 0 0) ≡ 3 }
    ensures second { size (2 ∷ 2 ∷ []) (λ word. takes word 1 0) ≡ 3 }
    ensures both { size (2 ∷ 2 ∷ []) (λ word. takes word 0 0 && takes word 1 0) ≡ 3 }
    ensures either { size (2 ∷ 2 ∷ []) (λ word. takes word 0 0 || takes word 1 0) ≡ 4 }
    ensures other { size (2 ∷ 2 ∷ []) (λ word. not (takes word 0 0)) ≡ 3 }
    ensures none { size (2 ∷ 2 ∷ []) (λ word. false) ≡ 0 }
{}

/// The cost of a word fits 64 bits with much to spare.
pub fn sums_are_small()
    ensures { (costs : List (List CostPair)) (which : Which) (word : List ℕ) → IsPriced costs
        → IsSum (cost costs which word) }
{}

/// The best is the member that is cheaper than each before it and than which no member is cheaper. So it is the
/// least by first and second cost, and of several such members the first. An empty list alone has none.
pub fn best_is_the_first_unbeaten()
    ensures best { (costs : List (List CostPair)) (words : List (List ℕ)) (word : List ℕ)
        → (best costs words ≡ Some word) ↔ IsFirstUnbeaten (is_cheaper_word costs) words word }
    ensures none_cheaper { (costs : List (List CostPair)) (words : List (List ℕ)) (word : List ℕ)
        → best costs words ≡ Some word → All (λ other. is_cheaper_word costs other word ≡ false) words }
    ensures none { (costs : List (List CostPair)) (words : List (List ℕ))
        → (best costs words ≡ None) ↔ (words ≡ []) }
{}

/// A listing has a row for each variable. The values of a row are those, in order, that some fitting word takes, and
/// each item names the cheapest such word and its costs.
pub fn listing_has_the_valid_values()
    ensures rows { (costs : List (List CostPair)) (words : List (List ℕ)) (choices : List Choice) (bounds : Bounds)
        → length (listing costs words choices bounds) ≡ length costs }
    ensures values { (costs : List (List CostPair)) (words : List (List ℕ)) (choices : List Choice) (bounds : Bounds)
        (variable : ℕ) → variable < length costs
        → map (λ x. x.value) (listing_of costs words choices bounds variable)
        ≡ filter (is_valid costs words choices bounds variable) (range_with_len 0 (value_count costs variable)) }
    ensures items { (costs : List (List CostPair)) (words : List (List ℕ)) (choices : List Choice) (bounds : Bounds)
        (variable : ℕ) → variable < length costs
        → All (IsCheapestTaking costs words choices bounds variable) (listing_of costs words choices bounds variable) }
{}

/// A variable is chosen where a value is chosen for it.
pub fn chosen_has_a_value()
    ensures { (choices : List Choice) (variable : ℕ)
        → is_some (value_of choices variable) ≡ is_chosen choices variable }
{}

/// What is chosen for a variable stays where a choice of another one is added, and where those of another one are taken out.
pub fn choices_of_other_variables_stay()
    ensures added { (choices : List Choice) (choice : Choice) (variable : ℕ) → variable ≢ choice.variable
        → value_of (choices ++ choice ∷ []) variable ≡ value_of choices variable }
    ensures taken_out { (choices : List Choice) (gone variable : ℕ) → variable ≢ gone
        → value_of (without choices gone) variable ≡ value_of choices variable }
{}
