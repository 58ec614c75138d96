//! The forms of the command line.

ghost use Rattle.std.specs.Prelude.{◌≡◌, map};
ghost use Rattle.pc_top.specs.Words.{form_of, form_of_two, form_of_word};

use pc_generator::Size;
use pc_names::read_unsigned;

/// A job of the program.
#[derive(Clone, Copy, Debug, PartialEq, Eq)]
pub enum Form {
    /// `list`: a product text in, its open listing out.
    List,
    /// `dump`: a product text in, the text of its diagram out.
    Dump,
    /// `check`: a dump in, how many nodes and edges its diagram has out.
    Check,
    /// `script`: lines of commands in, their answers out.
    Script,
    /// `generate N`: nothing in, the summary of the generator's file of N variables out.
    Generate(Size),
}

impl Form {
    /// The job that the words of a command line name.
    pub fn read(words: &[Vec<u8>]) -> Option<Form>
        ensures { result ≡ form_of (map (λ word. word.items) words.now) }
    {
        match words {
            [word] => Form::of_word(word.as_slice()),
            [word, number] => Form::of_two(word.as_slice(), number.as_slice()),
            _ => None,
        }
    }

    fn of_word(word: &[u8]) -> Option<Form>
        ensures { result ≡ form_of_word word.now }
    {
        if word == b"list".as_slice() {
            Some(Form::List)
        } else if word == b"dump".as_slice() {
            Some(Form::Dump)
        } else if word == b"check".as_slice() {
            Some(Form::Check)
        } else if word == b"script".as_slice() {
            Some(Form::Script)
        } else {
            None
        }
    }

    fn of_two(word: &[u8], number: &[u8]) -> Option<Form>
        ensures { result ≡ form_of_two word.now number.now }
    {
        if word != b"generate".as_slice() {
            return None;
        }
        Some(Form::Generate(Size::of(read_unsigned(number)?)?))
    }
}
