//! The names of a product's variables and values, with their positions.

ghost use Rattle.std.specs.Prelude.{◌≡◌, [], true, false, map, IfOk, MatchOption};
ghost use Rattle.std.specs.List.{list_all};
ghost use Rattle.pc_base.specs.Distinct.{all_differ};
ghost use Rattle.pc_names.specs.Spelling.{same_spelling};
ghost use Rattle.pc_file.specs.Limits.{names_differ, values_differ, value_names, variable_names};
ghost use Rattle.pc_file.specs.Catalogue.{Indexes, variable_position, value_position};

use crate::variable::{Value, Variable};
use pc_base::{NoMemory, Sequence};
use pc_names::{Name, Names};
use std::alloc::{AllocError, Global};

/// The names of the variables, in order, and for each the names of its values, in order. No variable's name
/// stands twice, and no name twice among the values of one variable.
#[derive(Debug, Drop)]
pub struct Catalogue {
    pub variables: Names,
    pub values: Sequence<Names>,
}

impl Catalogue {
    /// No names.
    pub fn new(alloc: Global) -> Catalogue
        ensures variables { result.variables ≡ [] }
        ensures values { result.values ≡ [] }
    {
        Catalogue {
            variables: Names::new(alloc),
            values: Sequence::new(alloc),
        }
    }

    /// The names of these variables and of their values, or `None` where a variable's name stands twice, or a
    /// value's among those of its variable.
    pub fn of(alloc: Global, variables: &[Variable]) -> Result<Option<Catalogue>, NoMemory>
        ensures { IfOk result (λ found. MatchOption found (names_differ variables.now ≡ false)
            (λ names. Indexes names variables.now × (names_differ variables.now ≡ true))) }
    {
        let Some(names) = Names::of(alloc, &variable_names(alloc, variables)?)? else {
            return Ok(None);
        };
        let Some(values) = names_of_all(alloc, variables)? else {
            return Ok(None);
        };
        Ok(Some(Catalogue {
            variables: names,
            values,
        }))
    }

    /// The position of a variable, counted from 0.
    pub fn variable(&self, name: &Name) -> Option<usize>
        ensures { result ≡ variable_position self.now name.now }
    {
        self.variables.position(name)
    }

    /// The position of a value of the variable at a position.
    pub fn value(&self, variable: usize, name: &Name) -> Option<usize>
        ensures { result ≡ value_position self.now variable name.now }
    {
        self.values.get(variable)?.position(name)
    }
}

/// The names of the values of each variable, or `None` where one stands twice among those of one variable.
fn names_of_all(alloc: Global, variables: &[Variable]) -> Result<Option<Sequence<Names>>, NoMemory>
    ensures { IfOk result (λ found. MatchOption found (list_all values_differ variables.now ≡ false)
        (λ names. (names ≡ map value_names variables.now) × (list_all values_differ variables.now ≡ true))) }
{
    let mut all = Sequence::new(alloc);
    for variable in variables {
        let names = value_names(alloc, variable.values.as_slice())?;
        let Some(names) = Names::of(alloc, &names)? else {
            return Ok(None);
        };
        all.push(names)?;
    }
    Ok(Some(all))
}

fn variable_names(alloc: Global, variables: &[Variable]) -> Result<Vec<Name>, AllocError>
    ensures { IfOk result (λ names. names.items ≡ variable_names variables.now) }
{
    variables
        .iter()
        .map(|variable| variable.name)
        .collect(alloc)
}

fn value_names(alloc: Global, values: &[Value]) -> Result<Vec<Name>, AllocError>
    ensures { IfOk result (λ names. names.items ≡ map (λ value. value.name) values.now) }
{
    values.iter().map(|value| value.name).collect(alloc)
}
