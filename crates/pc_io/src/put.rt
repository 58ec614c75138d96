//! Writing a whole text.

ghost use Rattle.std.specs.Prelude.{◌≡◌, ◌≤◌, OnOk, OnErr};
ghost use Rattle.std.specs.Io.KnownBytes.{append_known};
ghost use Rattle.pc_base.specs.Rose.{Rose};
ghost use Rattle.pc_io.specs.Told.{GrewByPart};

use crate::failed::Failed;
use crate::sink::Sink;

/// Writes all the bytes, in as many writes as the sink asks for. It takes no memory.
pub fn put_all<K: Sink>(sink: &mut K, bytes: &[u8]) -> Result<(), Failed>
    ensures whole { OnOk result (K.written sink.new ≡ append_known (K.written sink.old) bytes.now) }

    ensures failed { OnErr result (Rose (K.write_faults sink.old) (K.write_faults sink.new)) }
    ensures part { OnErr result (GrewByPart bytes.now (K.written sink.old) (K.written sink.new)) }

    ensures faultless { OnOk result (K.write_faults sink.new ≡ K.write_faults sink.old) }
    ensures counted { K.write_faults sink.old ≤ K.write_faults sink.new }
    ensures aside { K.write_aside sink.new ≡ K.write_aside sink.old }
{
    let mut left = bytes;
    while !left.is_empty() {
        let taken = sink.write(left)?;
        left = &left[taken..];
    }
    Ok(())
}
