//! Which words fit choices and bounds.

ghost use Rattle.std.specs.Prelude.{◌≡◌, IfOk};
ghost use Rattle.pc_diagram.specs.Bounds.{allows, allows_pair};
ghost use Rattle.pc_diagram.specs.Costs.{IsPriced};
ghost use Rattle.pc_diagram.specs.Fitting.{takes, extends, within, fitting};

use crate::bounds::Bounds;
use crate::choices::Choices;
use crate::costs::CostPair;
use crate::word::Word;

/// Whether a word takes every chosen value.
pub(crate) fn extends(word: &Word, choices: &Choices) -> bool
    ensures { result ≡ extends word.now choices.now }
{
    choices.as_slice().iter().all(|choice| takes(
        word,
        choice.variable as usize,
        choice.value as usize,
    ))
}

/// Whether a word takes a value at a variable.
pub(crate) fn takes(word: &Word, variable: usize, value: usize) -> bool
    ensures { result ≡ takes word.now variable value }
{
    match word.get(variable) {
        Some(taken) => *taken as usize == value,
        None => false,
    }
}

/// Whether each bound that is set is at least that part of a pair.
pub(crate) fn allows_pair(bounds: &Bounds, pair: &CostPair) -> bool
    ensures { result ≡ allows_pair bounds.now pair.now }
{
    allows(bounds.first, pair.first) && allows(bounds.second, pair.second)
}

fn allows(bound: Option<i64>, cost: i64) -> bool
    ensures { result ≡ allows bound cost }
{
    match bound {
        Some(most) => cost <= most,
        None => true,
    }
}
