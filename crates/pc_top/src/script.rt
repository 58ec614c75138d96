//! `script`: lines of commands in, their answers out.

ghost use Rattle.std.specs.Prelude.{◌≡◌, ◌≤◌};
ghost use Rattle.pc_base.specs.Rose.{Rose};
ghost use Rattle.pc_io.specs.Ends.{ends};
ghost use Rattle.pc_top.specs.declared.status.Status.TheVariants.{ReadFault, WriteFault};
ghost use Rattle.pc_top.specs.ScriptStatus.{RunsScript, status_after};

use crate::status::Status;
use pc_io::{Sink, Source};
use pc_script::{ScriptEnd, run_script};
use std::alloc::Global;

/// Runs a script, and gives the status. It never refuses a text: what a line says wrongly is answered.
#[tactic(auto, using(crate::proofs::ScriptEnds::runs_script))]
pub fn script<S: Source, K: Sink>(alloc: Global, source: &mut S, sink: &mut K) -> Status
    ensures runs { let seen = ends S.rest S.read_faults K.written K.write_faults in
        RunsScript result (seen source.old sink.old) (seen source.new sink.new) }
    ensures read_fault { result ≡ ReadFault → Rose (S.read_faults source.old) (S.read_faults source.new) }
    ensures write_fault { result ≡ WriteFault → Rose (K.write_faults sink.old) (K.write_faults sink.new) }
    ensures counted_reads { S.read_faults source.old ≤ S.read_faults source.new }
    ensures counted_writes { K.write_faults sink.old ≤ K.write_faults sink.new }
    ensures read_aside { S.read_aside source.new ≡ S.read_aside source.old }
    ensures write_aside { K.write_aside sink.new ≡ K.write_aside sink.old }
{
    status_after(run_script(alloc, source, sink))
}

/// The status of each end.
fn status_after(end: ScriptEnd) -> Status
    ensures { result ≡ status_after end }
{
    match end {
        ScriptEnd::Ended => Status::Done,
        ScriptEnd::ReadFault => Status::ReadFault,
        ScriptEnd::WriteFault => Status::WriteFault,
        ScriptEnd::TooLong => Status::TooLong,
        ScriptEnd::NoMemory => Status::NoMemory,
    }
}
