//! The jobs that read an input to its end and answer it at once.

ghost use Rattle.std.specs.Prelude.{◌≡◌, ◌≢◌, ◌≤◌, false, Some, Err, IfErr, IfOk, IfSome};
ghost use Rattle.pc_base.specs.Rose.{Rose};
ghost use Rattle.pc_io.specs.declared.line_fault.LineFault.{LineFault};
ghost use Rattle.pc_io.specs.Ends.{ends};
ghost use Rattle.pc_io.specs.NextLine.{is_outside_fault};
ghost use Rattle.pc_top.specs.declared.status.Status.TheVariants.{ReadFault, WriteFault};
ghost use Rattle.pc_top.specs.Outcome.{AnswersJob, IsReply, job_limit};

use crate::check_reply::check_reply;
use crate::response::Response;
use crate::status::Status;
use pc_dump::read_dump;
use pc_file::TEXT_BYTES;
use pc_io::{LineFault, MOST_LINE_BYTES, Sink, Source, put_all, whole_text};
use std::alloc::Global;

/// The most bytes of a product text.
pub const MOST_TEXT_BYTES: u64 = TEXT_BYTES as u64;

/// The most bytes of a dump.
pub const MOST_DUMP_BYTES: u64 = 134_217_728;

/// What is done with an input.
#[derive(Clone, Copy, Debug, PartialEq, Eq)]
pub enum Job {
    /// A product text in, its open listing out.
    List,
    /// A product text in, the text of its diagram out.
    Dump,
    /// A dump in, how many nodes and edges its diagram has out.
    Check,
}

impl Job {
    /// Reads an input to its end, and answers it. A dump is read as a stream of lines, never held as a whole.
    fn reply<S: Source>(self, alloc: Global, source: &mut S) -> Result<Response, LineFault>
        ensures replies { IfOk result (λ reply. IsReply self reply.status reply.text (S.rest source.old) (S.rest source.new)) }
        ensures long { IfErr result (λ fault. is_outside_fault fault ≡ false → IfSome (S.rest source.old) (λ text. job_limit self text ≡ Some fault)) }
        ensures failed { result ≡ Err LineFault.ReadFault → Rose (S.read_faults source.old) (S.read_faults source.new) }
        ensures counted { S.read_faults source.old ≤ S.read_faults source.new }
        ensures aside { S.read_aside source.new ≡ S.read_aside source.old }
    {
        match self {
            Job::List => {
                let text = whole_text(alloc, source, MOST_LINE_BYTES, MOST_TEXT_BYTES)?;
                Ok(Response::to_list(alloc, text.as_slice())?)
            }
            Job::Dump => {
                let text = whole_text(alloc, source, MOST_LINE_BYTES, MOST_TEXT_BYTES)?;
                Ok(Response::to_dump(alloc, text.as_slice())?)
            }
            Job::Check => {
                let dump = read_dump(alloc, source, MOST_LINE_BYTES, MOST_DUMP_BYTES)?;
                Ok(check_reply(alloc, dump)?)
            }
        }
    }
}

/// Reads an input to its end, and writes its answer at once.
pub fn answer<S: Source, K: Sink>(alloc: Global, job: Job, source: &mut S, sink: &mut K) -> Status
    ensures answers { let seen = ends S.rest S.read_faults K.written K.write_faults in
        AnswersJob job result (seen source.old sink.old) (seen source.new sink.new) }
    ensures read_fault { result ≡ ReadFault → Rose (S.read_faults source.old) (S.read_faults source.new) }
    ensures write_fault { result ≡ WriteFault → Rose (K.write_faults sink.old) (K.write_faults sink.new) }
    ensures counted_reads { S.read_faults source.old ≤ S.read_faults source.new }
    ensures counted_writes { K.write_faults sink.old ≤ K.write_faults sink.new }
    ensures read_aside { S.read_aside source.new ≡ S.read_aside source.old }
    ensures write_aside { K.write_aside sink.new ≡ K.write_aside sink.old }
{
    match job.reply(alloc, source) {
        Ok(reply) => match put_all(sink, reply.text.as_slice()) {
            Ok(()) => reply.status,
            Err(_) => Status::WriteFault,
        },
        Err(line_fault) => Status::after_fault(line_fault),
    }
}
