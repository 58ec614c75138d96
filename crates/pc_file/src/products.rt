//! The plain list of a file's products.

ghost use Rattle.std.specs.Prelude.{◌≡◌, ◌≤◌, ◌<◌, ◌↔◌, [], ◌∷◌, ◌++◌, filter, true, IsTrue, OnOk, IfOk, IsErrOf, MatchOption};
ghost use Rattle.std.specs.List.{list_all};
ghost use Rattle.pc_file.specs.Products.{obeys, value_counts, word_count, products, products_after, words_of};
ghost use Rattle.pc_file.specs.Limits.{is_sized};

use crate::file::File;
use crate::holding::all_hold;
use crate::sizes::MOST_WORDS;
use crate::variable::Variable;
use pc_base::{NoMemory, Sequence};
use pc_diagram::Word;
use std::alloc::Global;
use thiserror::Error;

/// Why there is no plain list.
#[derive(Clone, Copy, Debug, PartialEq, Eq, Error)]
pub enum PlainFault {
    #[error("there are more than 65,536 words")]
    TooMany,
    #[error("out of memory")]
    NoMemory,
}

impl From<NoMemory> for PlainFault {
    ghost use Rattle.std.specs.Prelude.{◌≡◌};
    ghost use Rattle.pc_file.specs.declared.products.PlainFault.TheVariants.{NoMemory};

    ghost from_gives = { λ _ e. e ≡ NoMemory };

    fn from(_error: NoMemory) -> PlainFault {
        PlainFault::NoMemory
    }
}

/// The products of a file in lexicographic order, by trying every word.
pub fn plain_products(alloc: Global, file: &File) -> Result<Sequence<Word>, PlainFault>
    ensures products { IfOk result (λ words. words ≡ products file.now) }
    ensures few { IfOk result (λ _. words_of file.now ≤ MOST_WORDS) }
    ensures too_many { IsErrOf result PlainFault.TooMany → MOST_WORDS < words_of file.now }
{
    if has_too_many_words(file) {
        return Err(PlainFault::TooMany);
    }
    let mut word = Vec::new(alloc);
    let mut words = Sequence::new(alloc);
    add_products(alloc, file, file.variables(), &mut word, &mut words)?;
    Ok(words)
}

/// Whether the numbers of values multiply to more than `MOST_WORDS`.
fn has_too_many_words(file: &File) -> bool
    ensures { IsTrue result ↔ (MOST_WORDS < words_of file.now) }
{
    word_count(file.variables()).is_none()
}

/// How many words there are over these variables, where there are at most `MOST_WORDS`.
fn word_count(variables: &[Variable]) -> Option<usize>
    requires { list_all is_sized variables.now ≡ true }
    ensures { MatchOption result (MOST_WORDS < word_count (value_counts variables.now))
        (λ count. (count ≡ word_count (value_counts variables.now)) × (count ≤ MOST_WORDS)) }
{
    let Some((variable, others)) = variables.split_first() else {
        return Some(1);
    };
    let count = variable.values.len() * word_count(others)?;
    (count <= MOST_WORDS).then_some(count)
}

/// Adds the products that begin with a word and go on over the variables that are left.
fn add_products(
    alloc: Global,
    file: &File,
    rest: &[Variable],
    word: &mut Vec<u32>,
    words: &mut Sequence<Word>,
) -> Result<(), NoMemory>
    requires { list_all is_sized rest.now ≡ true }
    ensures words { OnOk result (words.new ≡ words.old ++ products_after file.now word.old.items (value_counts rest.now)) }
    ensures word { OnOk result (word.new.items ≡ word.old.items) }
{
    let Some((variable, others)) = rest.split_first() else {
        return add_if_product(alloc, file, word, words);
    };
    for value in 0..variable.values.len() as u32 {
        word.push(value)?;
        add_products(alloc, file, others, word, words)?;
        word.pop();
    }
    Ok(())
}

/// Adds a word if every rule holds for it.
fn add_if_product(
    alloc: Global,
    file: &File,
    word: &[u32],
    words: &mut Sequence<Word>,
) -> Result<(), NoMemory>
    ensures { OnOk result (words.new ≡ words.old ++ filter (obeys file.now) (word.now ∷ [])) }
{
    if all_hold(file.variables(), word, file.rules()) {
        words.push(Word::from_slice(alloc, word)?)?;
    }
    Ok(())
}
