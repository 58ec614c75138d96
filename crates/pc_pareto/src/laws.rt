//! Laws of fronts.

ghost use Rattle.std.specs.Prelude.{◌≡◌, ℕ, [], ◌∷◌, List, map, Some, None};
ghost use Rattle.pc_diagram.specs.declared.costs.CostPair.{CostPair};
ghost use Rattle.pc_pareto.specs.declared.front_item.FrontItem.{FrontItem};
ghost use Rattle.pc_diagram.specs.Bike.{bike_costs};
ghost use Rattle.pc_diagram.specs.BikeDiagram.{bike_diagram};
ghost use Rattle.pc_diagram.specs.declared.choice.Choice.{Choice};
ghost use Rattle.pc_diagram.specs.declared.raw_diagram.RawDiagram.{RawDiagram};
ghost use Rattle.pc_diagram.specs.declared.side.Side.{Side};
ghost use Rattle.pc_diagram.specs.declared.side.Side.TheVariants.{Heads, Tails};
ghost use Rattle.pc_diagram.specs.Diagram.{IsCanonical};
ghost use Rattle.pc_diagram.specs.Paths.{has_word};
ghost use Rattle.pc_pareto.specs.BikeFronts.{bike_pairs, bike_front, offered_items, kept_items};
ghost use Rattle.pc_pareto.specs.Front.{front, IsFront};
ghost use Rattle.pc_pareto.specs.Fronts.{front_of_node, sizes_from, limit_at};
ghost use Rattle.pc_pareto.specs.Items.{pair_of, IsFrontOf, IsFrontOfOffered};
ghost use Rattle.pc_pareto.specs.WordFronts.{length_size, word_limit_at};

/// A list of pairs has one front: what falls by second cost as it rises by first cost, is taken of the list, and has for
/// each of its pairs one that is at most that pair.
pub fn a_list_has_one_front()
    ensures is_one { (pairs : List CostPair) → IsFront pairs (front pairs) }
    ensures one { (pairs kept : List CostPair) → IsFront pairs kept → kept ≡ front pairs }
    ensures items { (items kept : List FrontItem) → IsFrontOf items kept → map pair_of kept ≡ front (map pair_of items) }
{}

/// The definitions, on the bikes: two pairs are not beaten. Of four items that are offered, two with one pair, a front keeps
/// two.
pub fn bikes_have_two_pairs()
    ensures front { front bike_pairs ≡ bike_front }
    ensures offered { IsFrontOfOffered offered_items kept_items }
{}

/// The fronts of the bikes' nodes, by evaluation: how many pairs each layer has, from either end; the pairs at the last
/// layer; and where so many pairs are too many.
pub fn bikes_have_fronts_at_each_node()
    ensures heads { sizes_from Heads bike_diagram bike_costs [] ≡ 1 ∷ 3 ∷ 2 ∷ 2 ∷ [] }
    ensures tails { sizes_from Tails bike_diagram bike_costs [] ≡ 1 ∷ 2 ∷ 3 ∷ 2 ∷ [] }
    ensures last { front_of_node Heads bike_diagram bike_costs [] 3 0 ≡ bike_front }
    ensures root { front_of_node Tails bike_diagram bike_costs [] 0 0 ≡ bike_front }
    ensures few { limit_at 3 Heads bike_diagram bike_costs [] ≡ Some 1 }
    ensures more { limit_at 3 Tails bike_diagram bike_costs [] ≡ Some 2 }
    ensures enough { limit_at 8 Heads bike_diagram bike_costs [] ≡ None }
{}

/// Where the fronts of a diagram's nodes have too many pairs, its words alone tell: for the nodes of a layer are the classes
/// of the beginnings of that length, which are those with the same rest.
pub fn words_tell_where_fronts_have_too_many_pairs()
    ensures { (raw : RawDiagram) (costs : List (List CostPair)) (choices : List Choice) (most : ℕ) (side : Side) → IsCanonical raw
        → word_limit_at most side (has_word raw) raw.domains costs choices ≡ limit_at most side raw costs choices }
{}

/// On the bikes, by evaluation: the beginnings of two values have two different rests, and the fronts of these two classes have
/// a pair each.
pub fn bikes_have_fronts_at_each_class()
    ensures heads { length_size Heads (has_word bike_diagram) bike_diagram.domains bike_costs [] 2 ≡ 2 }
    ensures tails { length_size Tails (has_word bike_diagram) bike_diagram.domains bike_costs [] 1 ≡ 3 }
{}
