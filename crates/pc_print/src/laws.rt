//! Laws of the printed form of rules. Each function's contract is a law; nothing calls them.

ghost use Rattle.std.specs.Prelude.{◌≡◌, true, ◌∷◌, List};
ghost use Rattle.pc_file.specs.declared.catalogue.Catalogue.{Catalogue};
ghost use Rattle.pc_file.specs.declared.rule.Rule.{Rule};
ghost use Rattle.pc_file.specs.declared.variable.Variable.{Variable};
ghost use Rattle.pc_file.specs.Catalogue.{Indexes};
ghost use Rattle.pc_file.specs.Limits.{is_rule};
ghost use Rattle.pc_file.specs.PrintedRule.{printed_rule};
ghost use Rattle.pc_print.specs.Nameable.{Nameable};
ghost use Rattle.pc_rules.specs.RuleText.{IsRuleText};

/// The printed form of a rule spells that rule, by itself and after a space. So no other rule has it.
#[tactic(auto, using(crate::proofs::PrintedRuleText::printed_rule_spells, crate::proofs::PrintedRuleText::spaced_rule_spells, crate::proofs::PrintedRuleText::printed_once))]
pub fn printed_rule_spells_rule()
    ensures alone { (names : Catalogue) (variables : List Variable) → Indexes names variables → Nameable variables
        → (rule : Rule) → is_rule variables rule ≡ true → IsRuleText names (printed_rule variables rule) rule }
    ensures spaced { (names : Catalogue) (variables : List Variable) → Indexes names variables → Nameable variables
        → (rule : Rule) → is_rule variables rule ≡ true → IsRuleText names (32 ∷ printed_rule variables rule) rule }
    ensures once { (variables : List Variable) → Nameable variables
        → (rule other : Rule) → is_rule variables rule ≡ true → is_rule variables other ≡ true
        → printed_rule variables rule ≡ printed_rule variables other → rule ≡ other }
{}
