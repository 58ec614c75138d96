//! The program over any source and sink.

ghost use Rattle.std.specs.Prelude.{◌≡◌, ◌≤◌, ◌↔◌, None, IfSome, map};
ghost use Rattle.pc_base.specs.Rose.{Rose};
ghost use Rattle.pc_io.specs.Ends.{ends};
ghost use Rattle.pc_top.specs.declared.status.Status.TheVariants.{ReadFault, WriteFault};
ghost use Rattle.pc_top.specs.Does.{Does, Exits};
ghost use Rattle.pc_top.specs.Words.{form_of};

use crate::form::Form;
use crate::generate::generate;
use crate::job::{Job, answer};
use crate::script::script;
use crate::status::Status;
use pc_io::{Sink, Source};
use std::alloc::Global;

/// Does the job that the words of the command line name, and gives the exit status.
///
/// `list` reads a product text and writes its listing without choices and bounds, and a line `.`; `dump` writes the text
/// of its diagram; `check` reads the text of a diagram and writes how many nodes and edges that has. `script` reads lines
/// of commands and writes the answer to each before it waits for the next. `generate N` reads nothing, and writes a summary
/// of what sessions list of a made file of N variables, from 2 to 64.
///
/// A line has at most 65,536 bytes; a product text at most 1,048,576, a diagram's text at most 134,217,728, and all lines
/// of commands together at most 16,777,216.
pub fn run<S: Source, K: Sink>(
    alloc: Global,
    words: &Vec<Vec<u8>>,
    source: &mut S,
    sink: &mut K,
) -> u8
    // 2: exactly where the words have no form; nothing is read or written.
    ensures wrong_words { (result ≡ 2) ↔ (form_of (map (λ word. word.items) words.now.items) ≡ None) }
    ensures untouched { result ≡ 2 → (source.new ≡ source.old) × (sink.new ≡ sink.old) }

    // Else the form's job is done as the status tells.
    ensures does { let seen = ends S.rest S.read_faults K.written K.write_faults in
        IfSome (form_of (map (λ word. word.items) words.now.items)) (λ form. Exits form result (seen source.old sink.old) (seen source.new sink.new)) }

    // 4: only where the source failed. 5: only where the sink failed.
    ensures read_fault { result ≡ 4 → Rose (S.read_faults source.old) (S.read_faults source.new) }
    ensures write_fault { result ≡ 5 → Rose (K.write_faults sink.old) (K.write_faults sink.new) }

    ensures counted_reads { S.read_faults source.old ≤ S.read_faults source.new }
    ensures counted_writes { K.write_faults sink.old ≤ K.write_faults sink.new }
    ensures read_aside { S.read_aside source.new ≡ S.read_aside source.old }
    ensures write_aside { K.write_aside sink.new ≡ K.write_aside sink.old }
{
    match Form::read(words.as_slice()) {
        Some(form) => do_form(alloc, form, source, sink).code(),
        None => Status::WrongWords.code(),
    }
}

/// Does the job of a form.
fn do_form<S: Source, K: Sink>(alloc: Global, form: Form, source: &mut S, sink: &mut K) -> Status
    ensures does { let seen = ends S.rest S.read_faults K.written K.write_faults in
        Does form result (seen source.old sink.old) (seen source.new sink.new) }
    ensures read_fault { result ≡ ReadFault → Rose (S.read_faults source.old) (S.read_faults source.new) }
    ensures write_fault { result ≡ WriteFault → Rose (K.write_faults sink.old) (K.write_faults sink.new) }
    ensures counted_reads { S.read_faults source.old ≤ S.read_faults source.new }
    ensures counted_writes { K.write_faults sink.old ≤ K.write_faults sink.new }
    ensures read_aside { S.read_aside source.new ≡ S.read_aside source.old }
    ensures write_aside { K.write_aside sink.new ≡ K.write_aside sink.old }
{
    match form {
        Form::List => answer(alloc, Job::List, source, sink),
        Form::Dump => answer(alloc, Job::Dump, source, sink),
        Form::Check => answer(alloc, Job::Check, source, sink),
        Form::Script => script(alloc, source, sink),
        Form::Generate(size) => generate(alloc, size, source, sink),
    }
}
