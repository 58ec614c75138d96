//! A product file.

ghost use Rattle.std.specs.Prelude.{◌≡◌, ◌≤◌, ◌↔◌, length, IsTrue, IfOk, IsErrOf};
ghost use Rattle.pc_file.specs.Limits.{IsFile};
ghost use Rattle.pc_file.specs.Catalogue.{Indexes};
ghost use Rattle.pc_file.specs.Positions.{variable_named, value_named, cost_at, cost_named};

use crate::catalogue::Catalogue;
use crate::limits::{are_rules, are_variables};
use crate::printed_lines::is_printable;
use crate::rule::Rule;
use crate::sizes::{MOST_COSTS, MOST_RULES};
use crate::variable::Variable;
use pc_base::{NoMemory, Sequence};
use pc_diagram::{MOST_VARIABLES, Which};
use pc_names::{Name, Names, position};
use std::alloc::Global;
use std::marker::Model;
use thiserror::Error;

/// Why costs, variables and rules make no file.
#[derive(Clone, Copy, Debug, PartialEq, Eq, Error)]
pub enum FileFault {
    #[error("a limit of product files is broken")]
    Limit,
    #[error("out of memory")]
    NoMemory,
}

impl From<NoMemory> for FileFault {
    ghost use Rattle.std.specs.Prelude.{◌≡◌};
    ghost use Rattle.pc_file.specs.declared.file.FileFault.TheVariants.{NoMemory};

    ghost from_gives = { λ _ e. e ≡ NoMemory };

    fn from(_error: NoMemory) -> FileFault {
        FileFault::NoMemory
    }
}

/// A product: the names of its one or two costs, its 1 to 64 variables and its at most 1,024 rules. It keeps all
/// limits, and finds positions by names.
#[derive(Debug, Drop)]
pub struct File {
    costs: Sequence<Name>,
    variables: Sequence<Variable>,
    rules: Sequence<Rule>,
    names: Catalogue,
}

impl Model for File {
    ghost use Rattle.pc_file.specs.Limits.{Contents, IsFile};
    ghost use Rattle.pc_file.specs.Catalogue.{Indexes};
    ghost use Rattle.pc_file.specs.contracts.rule.Rule as rule;
    ghost use Rattle.std.specs.Coded.{codes};

    ghost Value = { Contents };

    ghost coded = { Prim.hlevel (codes, rule.the_row.coded) };

    ghost view = { λ f. record { costs = f.costs; variables = f.variables; rules = f.rules } };

    ghost invariant = { λ f. IsFile (record { costs = f.costs; variables = f.variables; rules = f.rules }) × Indexes f.names f.variables };
}

impl File {
    /// The file of these costs, variables and rules, in order.
    pub fn new(
        alloc: Global,
        costs: Sequence<Name>,
        variables: Sequence<Variable>,
        rules: Sequence<Rule>,
    ) -> Result<File, FileFault>
        ensures file { IfOk result (λ file. file ≡ record { costs = costs; variables = variables; rules = rules }) }
        ensures limits { IfOk result IsFile }
        ensures limit { IsErrOf result FileFault.Limit → ¬ IsFile (record { costs = costs; variables = variables; rules = rules }) }
    {
        if !has_right_counts(costs.len(), variables.len(), rules.len())
            || !are_variables(costs.len(), variables.as_slice())
            || !are_rules(variables.as_slice(), rules.as_slice())
            || !is_printable(costs.as_slice(), variables.as_slice(), rules.as_slice())
            || Names::of(alloc, costs.as_slice())?.is_none()
        {
            return Err(FileFault::Limit);
        }
        let Some(names) = Catalogue::of(alloc, variables.as_slice())? else {
            return Err(FileFault::Limit);
        };
        Ok(File::with_names(costs, variables, rules, names))
    }

    /// The file of costs, variables and rules that are known to keep all limits, with the names of the variables.
    pub fn with_names(
        costs: Sequence<Name>,
        variables: Sequence<Variable>,
        rules: Sequence<Rule>,
        names: Catalogue,
    ) -> File
        requires limits { IsFile (record { costs = costs; variables = variables; rules = rules }) }
        requires names { Indexes names variables }
        ensures { result ≡ record { costs = costs; variables = variables; rules = rules } }
    {
        File {
            costs,
            variables,
            rules,
            names,
        }
    }

    /// The names of the costs.
    pub fn costs(&self) -> &[Name]
        ensures costs { result.now ≡ self.now.costs }
        ensures limits { IsFile self.now }
    {
        self.costs.as_slice()
    }

    /// The variables, in order.
    pub fn variables(&self) -> &[Variable]
        ensures variables { result.now ≡ self.now.variables }
        ensures limits { IsFile self.now }
    {
        self.variables.as_slice()
    }

    /// The rules, in order.
    pub fn rules(&self) -> &[Rule]
        ensures rules { result.now ≡ self.now.rules }
        ensures limits { IsFile self.now }
    {
        self.rules.as_slice()
    }

    /// The position of the variable of this name, counted from 0.
    pub fn variable(&self, name: &Name) -> Option<u32>
        ensures { result ≡ variable_named self.now name.now }
    {
        let position = self.names.variable(name)?;
        Some(position as u32)
    }

    /// The position, counted from 0, of the value of this name among those of the variable at a position.
    pub fn value(&self, variable: u32, name: &Name) -> Option<u32>
        ensures { result ≡ value_named self.now variable name.now }
    {
        let position = self.names.value(variable as usize, name)?;
        Some(position as u32)
    }

    /// Which of the costs has this name.
    pub fn cost(&self, name: &Name) -> Option<Which>
        ensures { result ≡ cost_named self.now name.now }
    {
        Some(cost_at(position(self.costs.as_slice(), name)?))
    }
}

/// Which cost stands at a position.
fn cost_at(position: usize) -> Which
    ensures { result ≡ cost_at position }
{
    match position {
        0 => Which::First,
        _ => Which::Second,
    }
}

/// Whether so many costs, variables and rules keep the limits.
fn has_right_counts(costs: usize, variables: usize, rules: usize) -> bool
    ensures { IsTrue result ↔ ((1 ≤ costs) × (costs ≤ MOST_COSTS) × (1 ≤ variables) × (variables ≤ MOST_VARIABLES) × (rules ≤ MOST_RULES)) }
{
    1 <= costs
        && costs <= MOST_COSTS
        && 1 <= variables
        && variables <= MOST_VARIABLES
        && rules <= MOST_RULES
}
