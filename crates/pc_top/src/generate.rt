//! `generate`: a number of variables in, the summary of what the generator is answered out.

ghost use Rattle.std.specs.Prelude.{◌≡◌, ◌≤◌};
ghost use Rattle.pc_base.specs.Rose.{Rose};
ghost use Rattle.pc_io.specs.Ends.{ends};
ghost use Rattle.pc_top.specs.declared.status.Status.TheVariants.{WriteFault};
ghost use Rattle.pc_top.specs.Generates.{Generates};

use crate::status::Status;
use pc_generator::{Size, summary};
use pc_io::{Sink, Source, put_all};
use std::alloc::Global;

/// Writes the summary for so many variables, and gives the status. The source is left as it is.
pub fn generate<S: Source, K: Sink>(alloc: Global, size: Size, _source: &S, sink: &mut K) -> Status
    ensures generates { let seen = ends S.rest S.read_faults K.written K.write_faults in
        Generates size result (seen _source.now sink.old) (seen _source.now sink.new) }
    ensures write_fault { result ≡ WriteFault → Rose (K.write_faults sink.old) (K.write_faults sink.new) }
    ensures counted_writes { K.write_faults sink.old ≤ K.write_faults sink.new }
    ensures write_aside { K.write_aside sink.new ≡ K.write_aside sink.old }
{
    match summary(alloc, size) {
        Ok(text) => match put_all(sink, text.as_slice()) {
            Ok(()) => Status::Done,
            Err(_) => Status::WriteFault,
        },
        Err(_) => Status::NoMemory,
    }
}
