//! The variables that statements give, with their names found by their hashes.

ghost use Rattle.std.specs.Prelude.{◌≡◌, [], map, None, IfOk};
ghost use Rattle.std.specs.Option.{option_to_list};
ghost use Rattle.pc_file.specs.Limits.{value_names};
ghost use Rattle.pc_file.specs.Catalogue.{Indexes};
ghost use Rattle.pc_text.specs.Given.{catalogue_of, with_value};
ghost use Rattle.pc_text.specs.Orders.{first_standing, values_in};
ghost use Rattle.pc_text.specs.Told.{Tells};
ghost use Rattle.pc_text.specs.Variables.{all_of, begun, begin_faults, closed_all, value_faults, with_open_value};

use crate::statement_fault::StatementFault;
use pc_base::{NoMemory, Sequence};
use pc_diagram::{MOST_VALUES, MOST_VARIABLES};
use pc_file::{Catalogue, Value, Variable};
use pc_names::{Name, Names};
use pc_rules::Kind;
use std::alloc::Global;
use std::marker::Model;

/// The variable whose values are being given. Contracts see the variable with the values so far.
#[derive(Debug, Drop)]
struct OpenVariable {
    name: Name,
    values: Sequence<Value>,
    names: Names,
}

impl Model for OpenVariable {
    ghost use Rattle.std.specs.Prelude.{◌≡◌, map};
    ghost use Rattle.std.specs.Coded.{codes};
    ghost use Rattle.pc_file.specs.declared.variable.Variable.{Variable};
    ghost use Rattle.pc_file.specs.contracts.variable.Variable as contract;

    ghost Value = { Variable };

    ghost coded = { contract.the_row.coded };

    ghost view = { λ o. record { name = o.name; values = o.values } };

    ghost invariant = { λ o. o.names ≡ map (λ value. value.name) o.values };
}

impl OpenVariable {
    /// The variable of this name, without values.
    fn new(alloc: Global, name: Name) -> OpenVariable
        ensures { result ≡ record { name = name; values = [] } }
    {
        OpenVariable {
            name,
            values: Sequence::new(alloc),
            names: Names::new(alloc),
        }
    }

    /// The variable with one value more, at the end.
    fn with(self, value: Value) -> Result<OpenVariable, StatementFault>
        ensures { Tells result (first_standing (value_faults (value_names self) value.name)) (λ variable. variable ≡ with_value value self) }
    {
        let OpenVariable {
            name,
            mut values,
            mut names,
        } = self;
        if values.len() >= MOST_VALUES as usize {
            return Err(StatementFault::Fault(Kind::Size));
        }
        if !names.add(value.name)? {
            return Err(StatementFault::Fault(Kind::Repeat));
        }
        values.push(value)?;
        Ok(OpenVariable {
            name,
            values,
            names,
        })
    }
}

/// The variables whose values are all given, and the one whose values are being given.
#[derive(Debug, Drop)]
pub struct Variables {
    closed: Sequence<Variable>,
    open_variable: Option<OpenVariable>,
    names: Catalogue,
}

impl Model for Variables {
    ghost use Rattle.std.specs.Coded.{codes};
    ghost use Rattle.pc_file.specs.contracts.variable.Variable as contract;
    ghost use Rattle.pc_text.specs.GivenVariables.{GivenVariables, AreIndexed};

    ghost Value = { GivenVariables };

    ghost coded = { Prim.hlevel (codes, contract.the_row.coded) };

    ghost view = { λ v. record { closed = v.closed; open_variable = v.open_variable } };

    ghost invariant = { λ v. AreIndexed v.names v.closed v.open_variable };
}

impl Variables {
    /// No variables.
    pub fn new(alloc: Global) -> Variables
        ensures { result ≡ record { closed = []; open_variable = None } }
    {
        Variables {
            closed: Sequence::new(alloc),
            open_variable: None,
            names: Catalogue::new(alloc),
        }
    }

    /// The variables whose values are all given.
    pub fn closed(&self) -> &[Variable]
        ensures { result.now ≡ self.now.closed }
    {
        self.closed.as_slice()
    }

    /// The names of the variables and of their values, where the values of each are all given.
    pub fn names(&self) -> &Catalogue
        ensures { self.now.open_variable ≡ None → result.now ≡ catalogue_of self.now.closed }
    {
        &self.names
    }

    /// The same with the values of each variable all given.
    pub fn close(self) -> Result<Variables, NoMemory>
        ensures { IfOk result (λ variables. variables ≡ closed_all self) }
    {
        let Variables {
            mut closed,
            open_variable,
            mut names,
        } = self;
        if let Some(variable) = open_variable {
            let OpenVariable {
                name,
                values,
                names: of_values,
            } = variable;
            names.values.push(of_values)?;
            closed.push(Variable { name, values })?;
        }
        Ok(Variables {
            closed,
            open_variable: None,
            names,
        })
    }

    /// The same with one more variable, whose values are still to come.
    pub fn begin(self, alloc: Global, name: Name) -> Result<Variables, StatementFault>
        ensures { Tells result (first_standing (begin_faults (all_of self) name)) (λ variables. variables ≡ begun self name) }
    {
        let Variables {
            closed,
            mut names,
            ..
        } = self.close()?;
        if closed.len() >= MOST_VARIABLES {
            return Err(StatementFault::Fault(Kind::Size));
        }
        if !names.variables.add(name)? {
            return Err(StatementFault::Fault(Kind::Repeat));
        }
        Ok(Variables {
            closed,
            open_variable: Some(OpenVariable::new(alloc, name)),
            names,
        })
    }

    /// The same with one more value of the open variable, if there is one.
    pub fn with_value(self, value: Value) -> Result<Variables, StatementFault>
        ensures { Tells result (first_standing (value_faults (values_in self.open_variable) value.name)) (λ variables. variables ≡ with_open_value value self) }
    {
        let Variables {
            closed,
            open_variable,
            names,
        } = self;
        let Some(variable) = open_variable else {
            return Ok(Variables {
                closed,
                open_variable: None,
                names,
            });
        };
        let variable = variable.with(value)?;
        Ok(Variables {
            closed,
            open_variable: Some(variable),
            names,
        })
    }

    /// The variables whose values are all given, and their names, where no variable is open.
    pub fn into_parts(self) -> (Sequence<Variable>, Catalogue)
        ensures variables { result.0 ≡ self.closed }
        ensures names { self.open_variable ≡ None → Indexes result.1 self.closed }
    {
        let Variables { closed, names, .. } = self;
        (closed, names)
    }
}
