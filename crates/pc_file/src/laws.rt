//! Laws of the definitions. Each function's contract is a law; nothing calls them.

ghost use Rattle.std.specs.Prelude.{◌≡◌, ◌≢◌, ◌↔◌, ℕ, Bool, List, [], ◌∷◌, ◌++◌, true, map, length, Contains, Some, slice_get};
ghost use Rattle.std.specs.List.{AllPairs, flat_map};
ghost use Rattle.pc_diagram.specs.Bike.{bike_costs, bikes, open_listing};
ghost use Rattle.pc_diagram.specs.Bounds.{no_bounds};
ghost use Rattle.pc_diagram.specs.Words.{is_word};
ghost use Rattle.pc_names.specs.Places.{IsFirstPlace};
ghost use Rattle.pc_file.specs.declared.variable.Variable.{Variable};
ghost use Rattle.pc_file.specs.Limits.{Contents, IsFile, variable_names, value_names};
ghost use Rattle.pc_file.specs.Products.{value_counts, obeys, products};
ghost use Rattle.pc_file.specs.Costs.{costs_of, file_listing};
ghost use Rattle.pc_file.specs.ListingText.{listing_text};
ghost use Rattle.pc_file.specs.PrintedForm.{printed};
ghost use Rattle.pc_file.specs.Positions.{variable_named, value_named};
ghost use Rattle.pc_file.specs.WordOrder.{is_before};
ghost use Rattle.pc_file.specs.declared.rule.Rule.{Rule};
ghost use Rattle.pc_file.specs.Rule.{holds};
ghost use Rattle.pc_file.specs.Parts.{members_of, parts_before, parts_of, compile_list};
ghost use Rattle.pc_file.specs.Bike.{bike, bike_text, bike_printed};

/// The worked example, by evaluation: it keeps all limits, these are its products, this is the text of what is
/// listed of it with no choice and no bound, and this its printed form.
pub fn bike_has_eight_products()
    ensures limits { IsFile bike }
    ensures products { products bike ≡ bikes }
    ensures costs { costs_of bike.variables ≡ bike_costs }
    ensures listing { file_listing bike [] no_bounds ≡ open_listing }
    ensures text { listing_text bike.variables open_listing ≡ bike_text }
    ensures printed { printed bike ≡ bike_printed }
    // The first rule has three parts and the second four, and after each stands the set of the rules so far.
    ensures parts { map length (compile_list bike) ≡ 4 ∷ 5 ∷ [] }
{}

/// The products of a file are exactly the words, with a value of each variable, for which every rule holds. Each
/// stands once, and each before those that are greater in the first value in which they differ.
pub fn products_are_the_words_that_obey()
    ensures words { (file : Contents) (word : List ℕ) → Contains (products file) word
        ↔ ((is_word (value_counts file.variables) word ≡ true) × (obeys file word ≡ true)) }
    ensures once { (file : Contents) → AllPairs (λ word other. word ≢ other) (products file) }
    ensures in_order { (file : Contents) → AllPairs (λ word other. is_before word other ≡ true) (products file) }
{}

/// A name stands for the first variable that has it, and for the first value that has it among those of a variable.
pub fn names_have_first_places()
    ensures variables { (file : Contents) (name : List ℕ)
        → IsFirstPlace (variable_names file.variables) name (variable_named file name) }
    ensures values { (file : Contents) (place : ℕ) (variable : Variable) (name : List ℕ)
        → slice_get file.variables place ≡ Some variable
        → IsFirstPlace (value_names variable) name (value_named file place name) }
{}

/// The parts of a rule are those of its subrules, one after another, and then the rule itself.
pub fn parts_end_with_the_rule()
    ensures subrules { (variables : List Variable) (rule : Rule) → parts_before variables rule ≡ flat_map (parts_of variables) (members_of rule) }
    ensures last { (variables : List Variable) (rule : Rule) → parts_of variables rule ≡ parts_before variables rule ++ (λ word. holds variables word rule) ∷ [] }
{}
