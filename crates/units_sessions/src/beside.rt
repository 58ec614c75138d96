//! A session beside the plain list of its file's products.

use crate::text::text_of;
use anyhow::Result;
use pc_calls::Outcome;
use pc_diagram::{Bounds, Choices, Listing, Steps, Which};
use pc_file::{File, Variable, plain_listing};
use pc_names::Name;
use pc_session::{Answer, Session};
use std::alloc::Global;
use std::sync::ledger::Ledger;

/// Choices and bounds.
#[derive(Debug, Drop)]
pub struct Asked {
    choices: Choices,
    bounds: Bounds,
}

/// A session and what it was asked, how many of its answers were compared with the plain list, and what was asked where the
/// first one came that isn't the same.
#[derive(Drop)]
pub struct Beside<'a> {
    alloc: Global,
    file: &'a File,
    session: Session,
    asked: Asked,
    pub compared: u64,
    pub first_other: Option<Asked>,
}

impl<'a> Beside<'a> {
    /// A session of the file without choices and bounds.
    pub fn new(alloc: Global, file: &'a File, session: Session) -> Beside<'a> {
        let asked = Asked {
            choices: Choices::new(alloc),
            bounds: Bounds::none(),
        };
        Beside {
            alloc,
            file,
            session,
            asked,
            compared: 0,
            first_other: None,
        }
    }

    /// The session's listing.
    pub fn listing(&self) -> Result<Listing> {
        Ok(self.session.show()?)
    }

    /// Compares a listing with that of the plain list.
    pub fn compare(&mut self, listing: &Listing) -> Result<()> {
        let plain = self.plain(&self.asked.bounds)?;
        let text = text_of(self.alloc, self.file, listing)?;
        let beside = text_of(self.alloc, self.file, &plain)?;
        self.note(text.as_slice() == beside.as_slice())
    }

    /// Compares the listing of an answer. A refusal has none.
    fn compare_answer(&mut self, answer: &Answer) -> Result<()> {
        match &answer.listing {
            Some(listing) => self.compare(listing),
            None => self.note(false),
        }
    }

    /// The listing of the plain list with the choices and these bounds.
    fn plain(&self, bounds: &Bounds) -> Result<Listing> {
        Ok(plain_listing(self.alloc, self.file, &self.asked.choices, bounds)?)
    }

    /// Notes whether an answer is right.
    fn note(&mut self, is_right: bool) -> Result<()> {
        self.compared = self.compared.saturating_add(1);
        if !is_right && self.first_other.is_none() {
            self.first_other = Some(Asked {
                choices: self.asked.choices.copy(self.alloc)?,
                bounds: self.asked.bounds,
            });
        }
        Ok(())
    }

    /// Chooses a value for a variable that isn't chosen.
    pub fn choose<L: Ledger>(
        &mut self,
        variable: u32,
        value: u32,
        steps: &mut Steps<L>,
    ) -> Result<()> {
        let Some((name, chosen)) = names(self.file.variables(), variable, value) else {
            return Ok(());
        };
        if self.asked.choices.is_chosen(variable) {
            return Ok(());
        }
        let answer = self.session.choose(&name, &chosen, steps)?;
        self.asked.choices = self.asked.choices.with(self.alloc, variable, value)?;
        self.compare_answer(&answer)
    }

    /// Takes the choice of a variable back.
    pub fn retract<L: Ledger>(&mut self, variable: u32, steps: &mut Steps<L>) -> Result<()> {
        let Some((name, _)) = names(self.file.variables(), variable, 0) else {
            return Ok(());
        };
        let answer = self.session.retract(&name, steps)?;
        self.asked.choices = self.asked.choices.without(self.alloc, variable)?;
        self.compare_answer(&answer)
    }

    /// Whether a cost is given this bound, or none. It isn't where the file has no such cost, nor where it is refused: then the
    /// least of that cost is judged.
    pub fn bound(&mut self, which: Which, most: Option<i64>) -> Result<bool> {
        let Some(most) = most else {
            return Ok(true);
        };
        let Some(cost) = cost(self.file, which) else {
            return Ok(false);
        };
        let answer = self.session.bound(&cost, most)?;
        if answer.listing.is_none() {
            let is_right = self.is_too_tight(which, most, answer.outcome)?;
            self.note(is_right)?;
            return Ok(false);
        }
        self.asked.bounds = self.asked.bounds.with(which, Some(most));
        self.compare_answer(&answer)?;
        Ok(true)
    }

    /// Whether an outcome says rightly that a bound is too tight: with the least that it tells as the bound the plain list lists
    /// something, with one less nothing.
    fn is_too_tight(&self, which: Which, most: i64, outcome: Outcome) -> Result<bool> {
        let Outcome::TooTight { least } = outcome else {
            return Ok(false);
        };
        let within = self.plain(&self.asked.bounds.with(which, Some(least)))?;
        let below = self.asked.bounds.with(which, Some(least.saturating_sub(1)));
        let beyond = self.plain(&below)?;
        Ok(most < least && !lists_nothing(&within) && lists_nothing(&beyond))
    }

    /// Takes a cost's bound back, if it has one.
    pub fn unbound(&mut self, which: Which) -> Result<()> {
        let Some(cost) = cost(self.file, which) else {
            return Ok(());
        };
        if self.asked.bounds.on(which).is_none() {
            return Ok(());
        }
        let answer = self.session.unbound(&cost)?;
        self.asked.bounds = self.asked.bounds.with(which, None);
        self.compare_answer(&answer)
    }
}

/// The names of a variable and of one of its values.
fn names(variables: &[Variable], variable: u32, value: u32) -> Option<(Name, Name)> {
    let variable = variables.get(variable as usize)?;
    let value = variable.values.get(value as usize)?;
    Some((variable.name, value.name))
}

/// The name of a cost.
fn cost(file: &File, which: Which) -> Option<Name> {
    match which {
        Which::First => file.costs().first().copied(),
        Which::Second => file.costs().get(1).copied(),
    }
}

/// Whether no variable has a listed value.
fn lists_nothing(listing: &Listing) -> bool {
    listing.as_slice().iter().all(|items| items.is_empty())
}
