//! Writing all of some bytes.

ghost use Rattle.std.specs.Prelude.{◌≡◌, ℕ, ◌+◌, ◌<◌, ◌≤◌, List, [], ◌++◌, length, take, Option, Some, None, IfSome, OnOk, OnErr};
ghost use Rattle.con_outside.specs.Outside.{Rose, then_written, WroteFront, WrotePart};

use crate::traits::{Fault, Sink};

/// Writes bytes to the end, piece by piece. What was written is a front of them after each answer, all of them at `Ok`,
/// and never all of them at an error.
pub fn write_whole<O: Sink>(sink: &mut O, bytes: &[u8]) -> Result<(), Fault>
    ensures front { WroteFront bytes.now (O.written sink.old) (O.written sink.new) }
    ensures whole { OnOk result (O.written sink.new ≡ then_written (O.written sink.old) bytes.now) }
    ensures part { OnErr result (WrotePart bytes.now (O.written sink.old) (O.written sink.new)) }
    ensures failed { result ≡ Err Fault.Failed → Rose (O.faults sink.old) (O.faults sink.new) }
    ensures never_falls { O.faults sink.old ≤ O.faults sink.new }
{
    let mut at = 0;
    while at < bytes.len() {
        at += sink.write(&bytes[at..])?;
    }
    Ok(())
}
