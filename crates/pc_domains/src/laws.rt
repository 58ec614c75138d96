//! Laws of the definitions. Each function's contract is a law; nothing calls them.

ghost use Rattle.std.specs.Prelude.{◌≡◌, ℕ, ◌+◌, ◌-◌, pos, List, [], ◌∷◌, length, Contains, Option, Some, None, true, false};
ghost use Rattle.pc_diagram.specs.declared.bounds.Bounds.{Bounds};
ghost use Rattle.pc_diagram.specs.declared.choice.Choice.{Choice};
ghost use Rattle.pc_diagram.specs.declared.costs.CostPair.{CostPair};
ghost use Rattle.pc_diagram.specs.declared.raw_diagram.RawDiagram.{RawDiagram};
ghost use Rattle.pc_diagram.specs.declared.side.Side.TheVariants.{Heads, Tails};
ghost use Rattle.pc_diagram.specs.declared.which.Which.TheVariants.{First, Second};
ghost use Rattle.pc_diagram.specs.Bike.{bike_costs, line, three, two_days};
ghost use Rattle.pc_diagram.specs.BikeDiagram.{bike_diagram, carbon};
ghost use Rattle.pc_diagram.specs.Bounds.{allows_pair, no_bounds};
ghost use Rattle.pc_diagram.specs.Choices.{value_of};
ghost use Rattle.pc_diagram.specs.Diagram.{IsCanonical};
ghost use Rattle.pc_diagram.specs.Fitting.{fitting};
ghost use Rattle.pc_diagram.specs.Least.{least_cost};
ghost use Rattle.pc_diagram.specs.Listing.{listed};
ghost use Rattle.pc_diagram.specs.NodePaths.{is_allowed, is_tail};
ghost use Rattle.pc_diagram.specs.Paths.{words};
ghost use Rattle.pc_labels.specs.Kept.{KeptPaths, kept_at};
ghost use Rattle.pc_labels.specs.Labels.{AreHeads, AreTails};
ghost use Rattle.pc_pareto.specs.declared.front_item.FrontItem.{FrontItem};
ghost use Rattle.pc_pareto.specs.Fronts.{AreFronts};
ghost use Rattle.pc_domains.specs.FrontPaths.{kept_by_fronts};
ghost use Rattle.pc_domains.specs.LabelPaths.{kept_by_labels};
ghost use Rattle.pc_domains.specs.LabelLimits.{label_limit};
ghost use Rattle.pc_domains.specs.Orders.{IsAtMost, IsNoDearer};
ghost use Rattle.pc_domains.specs.Sides.{AreDistinctOf, AreSides, IsAllowedWay, IsAsked, IsLeastWay, listed_of};
ghost use Rattle.pc_domains.specs.Slots.{slots_again, slots_before};
ghost use Rattle.pc_domains.specs.Ways.{Keeps, Kept, Way, joined_word};

/// On the bikes, by evaluation: how many slots there are, and how many lie on either side of the wheel; and where so many pairs
/// are too many, without choices and with a frame chosen.
pub fn bikes_have_slots_and_limits()
    ensures slots { slots_before bike_diagram 3 ≡ 13 }
    ensures from_wheel { slots_again Heads bike_diagram 1 ≡ 10 }
    ensures to_wheel { slots_again Tails bike_diagram 1 ≡ 9 }
    ensures heads { label_limit 7 bike_diagram bike_costs [] ≡ Some (Heads, 3) }
    ensures tails { label_limit 5 bike_diagram bike_costs (carbon ∷ []) ≡ Some (Tails, 1) }
    ensures enough { label_limit 8 bike_diagram bike_costs [] ≡ None }
{}

/// On the bikes, by evaluation: the least of each cost over those that fit, and what is listed of a wheel and of a frame where at
/// most two days are allowed.
pub fn bikes_have_least_costs()
    ensures first { least_cost First bike_costs (fitting bike_costs (words bike_diagram) [] two_days) ≡ Some (pos 580) }
    ensures second { least_cost Second bike_costs (fitting bike_costs (words bike_diagram) [] no_bounds) ≡ Some (pos 2) }
    ensures none { least_cost First bike_costs (fitting bike_costs (words bike_diagram) (carbon ∷ []) two_days) ≡ None }
    ensures wheel { listed_of bike_diagram bike_costs [] two_days 1 1 ≡ Some (line 1 620 2 (three 1 1 0)) }
    ensures frame { listed_of bike_diagram bike_costs [] two_days 0 0 ≡ None }
{}

/// Where the cheapest paths are kept on either side of a variable, and the second cost has no bound, what is listed of a
/// value is the word of the least way through an edge of it; and nothing, where the bounds allow no way.
pub fn cheapest_paths_tell_what_is_listed()
    ensures listed { (raw : RawDiagram) (costs : List (List CostPair)) (choices : List Choice) (bounds : Bounds) (variable value : ℕ)
        (heads tails : ℕ → ℕ → Option Kept) (way : Way raw variable value heads tails)
        → IsAsked raw costs choices variable value → bounds.second ≡ None → AreSides IsNoDearer raw costs choices variable heads tails
        → is_allowed (value_of choices variable) value ≡ true → IsLeastWay raw costs bounds variable value heads tails way
        → listed_of raw costs choices bounds variable value ≡ Some (listed costs value (joined_word value way.head way.tail)) }
    ensures unlisted { (raw : RawDiagram) (costs : List (List CostPair)) (choices : List Choice) (bounds : Bounds) (variable value : ℕ)
        (heads tails : ℕ → ℕ → Option Kept)
        → IsAsked raw costs choices variable value → bounds.second ≡ None → AreSides IsNoDearer raw costs choices variable heads tails
        → is_allowed (value_of choices variable) value ≡ true
        → ((way : Way raw variable value heads tails) → IsAllowedWay costs bounds way → ⊥)
        → listed_of raw costs choices bounds variable value ≡ None }
{}

/// The same with the fronts of the paths on either side, whatever the bounds are.
pub fn fronts_tell_what_is_listed()
    ensures listed { (raw : RawDiagram) (costs : List (List CostPair)) (choices : List Choice) (bounds : Bounds) (variable value : ℕ)
        (heads tails : ℕ → ℕ → Option Kept) (way : Way raw variable value heads tails)
        → IsAsked raw costs choices variable value → AreSides IsAtMost raw costs choices variable heads tails
        → is_allowed (value_of choices variable) value ≡ true → IsLeastWay raw costs bounds variable value heads tails way
        → listed_of raw costs choices bounds variable value ≡ Some (listed costs value (joined_word value way.head way.tail)) }
    ensures unlisted { (raw : RawDiagram) (costs : List (List CostPair)) (choices : List Choice) (bounds : Bounds) (variable value : ℕ)
        (heads tails : ℕ → ℕ → Option Kept)
        → IsAsked raw costs choices variable value → AreSides IsAtMost raw costs choices variable heads tails
        → is_allowed (value_of choices variable) value ≡ true
        → ((way : Way raw variable value heads tails) → IsAllowedWay costs bounds way → ⊥)
        → listed_of raw costs choices bounds variable value ≡ None }
{}

/// A value that the choices don't allow isn't listed.
pub fn other_values_than_the_chosen_are_unlisted()
    ensures { (raw : RawDiagram) (costs : List (List CostPair)) (choices : List Choice) (bounds : Bounds) (variable value : ℕ)
        → IsAsked raw costs choices variable value → is_allowed (value_of choices variable) value ≡ false
        → listed_of raw costs choices bounds variable value ≡ None }
{}

/// Some word fits exactly where the bounds allow the costs of a path that is kept of the root: its cheapest path, where only
/// the first cost has a bound.
pub fn cheapest_path_tells_whether_a_word_fits()
    ensures fits { (raw : RawDiagram) (costs : List (List CostPair)) (choices : List Choice) (bounds : Bounds) (kept : ℕ → ℕ → Option Kept) (place : ℕ) (path : Kept)
        → AreDistinctOf raw.domains choices → bounds.second ≡ None → Keeps IsNoDearer costs (is_tail raw choices 0) raw.domains 1 kept
        → kept 0 place ≡ Some path → allows_pair bounds path.pair ≡ true
        → Contains (fitting costs (words raw) choices bounds) path.path }
    ensures none { (raw : RawDiagram) (costs : List (List CostPair)) (choices : List Choice) (bounds : Bounds) (kept : ℕ → ℕ → Option Kept)
        → AreDistinctOf raw.domains choices → bounds.second ≡ None → Keeps IsNoDearer costs (is_tail raw choices 0) raw.domains 1 kept
        → ((place : ℕ) (path : Kept) → kept 0 place ≡ Some path → allows_pair bounds path.pair ≡ false)
        → fitting costs (words raw) choices bounds ≡ [] }
{}

/// The same by the front of the root's paths, whatever the bounds are.
pub fn front_tells_whether_a_word_fits()
    ensures fits { (raw : RawDiagram) (costs : List (List CostPair)) (choices : List Choice) (bounds : Bounds) (kept : ℕ → ℕ → Option Kept) (place : ℕ) (path : Kept)
        → AreDistinctOf raw.domains choices → Keeps IsAtMost costs (is_tail raw choices 0) raw.domains 1 kept
        → kept 0 place ≡ Some path → allows_pair bounds path.pair ≡ true
        → Contains (fitting costs (words raw) choices bounds) path.path }
    ensures none { (raw : RawDiagram) (costs : List (List CostPair)) (choices : List Choice) (bounds : Bounds) (kept : ℕ → ℕ → Option Kept)
        → AreDistinctOf raw.domains choices → Keeps IsAtMost costs (is_tail raw choices 0) raw.domains 1 kept
        → ((place : ℕ) (path : Kept) → kept 0 place ≡ Some path → allows_pair bounds path.pair ≡ false)
        → fitting costs (words raw) choices bounds ≡ [] }
{}

/// The fronts that both ends of a diagram have with the choices tell what is listed of a value: the word of the least way
/// through an edge of it that the bounds allow, or nothing where they allow none.
pub fn fronts_of_both_ends_tell_what_is_listed()
    ensures listed { (raw : RawDiagram) (costs : List (List CostPair)) (choices : List Choice) (bounds : Bounds) (variable value : ℕ)
        (heads tails : List (List (List FrontItem)))
        (way : Way raw variable value (kept_by_fronts Heads heads variable) (kept_by_fronts Tails tails (length raw.domains - (variable + 1))))
        → IsAsked raw costs choices variable value → AreFronts Heads raw costs choices heads → AreFronts Tails raw costs choices tails
        → is_allowed (value_of choices variable) value ≡ true
        → IsLeastWay raw costs bounds variable value (kept_by_fronts Heads heads variable) (kept_by_fronts Tails tails (length raw.domains - (variable + 1))) way
        → listed_of raw costs choices bounds variable value ≡ Some (listed costs value (joined_word value way.head way.tail)) }
    ensures unlisted { (raw : RawDiagram) (costs : List (List CostPair)) (choices : List Choice) (bounds : Bounds) (variable value : ℕ)
        (heads tails : List (List (List FrontItem)))
        → IsAsked raw costs choices variable value → AreFronts Heads raw costs choices heads → AreFronts Tails raw costs choices tails
        → is_allowed (value_of choices variable) value ≡ true
        → ((way : Way raw variable value (kept_by_fronts Heads heads variable) (kept_by_fronts Tails tails (length raw.domains - (variable + 1))))
        → IsAllowedWay costs bounds way → ⊥)
        → listed_of raw costs choices bounds variable value ≡ None }
{}

/// The front of the root's paths to the end tells whether some word fits.
pub fn front_of_the_root_tells_whether_a_word_fits()
    ensures fits { (raw : RawDiagram) (costs : List (List CostPair)) (choices : List Choice) (bounds : Bounds) (tails : List (List (List FrontItem))) (place : ℕ) (path : Kept)
        → IsCanonical raw → AreDistinctOf raw.domains choices → AreFronts Tails raw costs choices tails
        → kept_by_fronts Tails tails (length raw.domains) 0 place ≡ Some path → allows_pair bounds path.pair ≡ true
        → Contains (fitting costs (words raw) choices bounds) path.path }
    ensures none { (raw : RawDiagram) (costs : List (List CostPair)) (choices : List Choice) (bounds : Bounds) (tails : List (List (List FrontItem)))
        → IsCanonical raw → AreDistinctOf raw.domains choices → AreFronts Tails raw costs choices tails
        → ((place : ℕ) (path : Kept) → kept_by_fronts Tails tails (length raw.domains) 0 place ≡ Some path → allows_pair bounds path.pair ≡ false)
        → fitting costs (words raw) choices bounds ≡ [] }
{}

/// The labels that both ends of a diagram have with the choices tell what is listed of a value, where the second cost has no
/// bound: the word of the least way through an edge of it that the bounds allow, or nothing where they allow none.
pub fn labels_of_both_ends_tell_what_is_listed()
    ensures listed { (raw : RawDiagram) (costs : List (List CostPair)) (choices : List Choice) (bounds : Bounds) (variable value : ℕ)
        (heads tails : KeptPaths) (way : Way raw variable value (kept_by_labels heads variable) (kept_by_labels tails (variable + 1)))
        → IsAsked raw costs choices variable value → bounds.second ≡ None → AreHeads raw choices costs heads → AreTails raw choices costs tails
        → is_allowed (value_of choices variable) value ≡ true
        → IsLeastWay raw costs bounds variable value (kept_by_labels heads variable) (kept_by_labels tails (variable + 1)) way
        → listed_of raw costs choices bounds variable value ≡ Some (listed costs value (joined_word value way.head way.tail)) }
    ensures unlisted { (raw : RawDiagram) (costs : List (List CostPair)) (choices : List Choice) (bounds : Bounds) (variable value : ℕ)
        (heads tails : KeptPaths)
        → IsAsked raw costs choices variable value → bounds.second ≡ None → AreHeads raw choices costs heads → AreTails raw choices costs tails
        → is_allowed (value_of choices variable) value ≡ true
        → ((way : Way raw variable value (kept_by_labels heads variable) (kept_by_labels tails (variable + 1))) → IsAllowedWay costs bounds way → ⊥)
        → listed_of raw costs choices bounds variable value ≡ None }
{}

/// The label of the root's paths to the end tells whether some word fits, where the second cost has no bound.
pub fn label_of_the_root_tells_whether_a_word_fits()
    ensures fits { (raw : RawDiagram) (costs : List (List CostPair)) (choices : List Choice) (bounds : Bounds) (tails : KeptPaths) (path : Kept)
        → IsCanonical raw → AreDistinctOf raw.domains choices → bounds.second ≡ None → AreTails raw choices costs tails
        → kept_at tails 0 0 ≡ Some path → allows_pair bounds path.pair ≡ true
        → Contains (fitting costs (words raw) choices bounds) path.path }
    ensures none { (raw : RawDiagram) (costs : List (List CostPair)) (choices : List Choice) (bounds : Bounds) (tails : KeptPaths)
        → IsCanonical raw → AreDistinctOf raw.domains choices → bounds.second ≡ None → AreTails raw choices costs tails
        → ((path : Kept) → kept_at tails 0 0 ≡ Some path → allows_pair bounds path.pair ≡ false)
        → fitting costs (words raw) choices bounds ≡ [] }
{}
