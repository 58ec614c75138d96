//! Choices of values for variables.

ghost use Rattle.std.specs.Prelude.{◌≡◌, ◌↔◌, [], ◌∷◌, ◌++◌, false, IsTrue, IfOk, OnOk, OnErr};
ghost use Rattle.pc_diagram.specs.Choices.{is_chosen, value_of, without, are_distinct};
ghost use Rattle.pc_diagram.specs.NodePaths.{AreChoicesOf, IsChoiceOf};

use crate::choice::Choice;
use pc_base::NoMemory;
use std::alloc::Global;
use std::marker::Model;

/// The choices in the order in which they were made. No variable is chosen twice.
#[derive(Debug, Drop)]
pub struct Choices {
    items: Vec<Choice>,
}

impl Model for Choices {
    ghost use Rattle.std.specs.Prelude.{List, IsTrue};
    ghost use Rattle.pc_diagram.specs.declared.choice.Choice.{Choice};
    ghost use Rattle.pc_diagram.specs.Choices.{are_distinct};

    ghost Value = { List Choice };

    ghost view = { λ c. c.items.items };

    ghost invariant = { λ c. IsTrue (are_distinct c.items.items) };
}

impl Choices {
    /// No choices. It takes no memory until it grows.
    pub fn new(alloc: Global) -> Choices
        ensures { result ≡ [] }
    {
        Choices {
            items: Vec::new(alloc),
        }
    }

    pub fn as_slice(&self) -> &[Choice]
        ensures items { result.now ≡ self.now }
        ensures distinct { IsTrue (are_distinct self.now) }
    {
        self.items.as_slice()
    }

    pub fn is_chosen(&self, variable: u32) -> bool
        ensures { result ≡ is_chosen self.now variable }
    {
        self.items.iter().any(|choice| choice.variable == variable)
    }

    /// The value chosen for a variable, if one is.
    pub fn value_of(&self, variable: u32) -> Option<u32>
        ensures { result ≡ value_of self.now variable }
    {
        self.items
            .iter()
            .find(|choice| choice.variable == variable)
            .map(|choice| choice.value)
    }

    /// A copy of these choices.
    pub fn copy(&self, alloc: Global) -> Result<Choices, NoMemory>
        ensures { IfOk result (λ choices. choices ≡ self.now) }
    {
        Ok(Choices {
            items: Vec::from_slice(alloc, self.items.as_slice())?,
        })
    }

    /// These choices, with one more at the end, of a variable that isn't chosen.
    #[tactic(auto, using(crate::proofs::ChoiceLemmas::distinct_steps))]
    pub fn with(&self, alloc: Global, variable: u32, value: u32) -> Result<Choices, NoMemory>
        requires { is_chosen self.now variable ≡ false }
        ensures { IfOk result (λ choices. choices ≡ self.now ++ record { variable = variable; value = value } ∷ []) }
    {
        let mut items = Vec::from_slice(alloc, self.items.as_slice())?;
        items.push(Choice { variable, value })?;
        Ok(Choices { items })
    }

    /// These choices without that of a variable, if it is chosen.
    pub fn without(&self, alloc: Global, variable: u32) -> Result<Choices, NoMemory>
        ensures { IfOk result (λ choices. choices ≡ without self.now variable) }
    {
        let mut items = Vec::from_slice(alloc, self.items.as_slice())?;
        items.retain(|choice| choice.variable != variable);
        Ok(Choices { items })
    }
}

/// Whether choices are those of a diagram's values, whose variables take so many.
pub fn are_choices_of(domains: &[u32], choices: &Choices) -> bool
    ensures { IsTrue result ↔ AreChoicesOf domains.now choices.now }
{
    choices
        .as_slice()
        .iter()
        .all(|choice| is_choice_of(domains, *choice))
}

/// Whether a choice is of one of the values of variables that take so many.
fn is_choice_of(domains: &[u32], choice: Choice) -> bool
    ensures { IsTrue result ↔ IsChoiceOf domains.now choice }
{
    match domains.get(choice.variable as usize) {
        Some(domain) => choice.value < *domain,
        None => false,
    }
}
