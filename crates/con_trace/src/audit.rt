//! The line that tells what an audit found.

ghost use Rattle.std.specs.Prelude.{◌≡◌, ◌≤◌, List, [], ◌∷◌, ◌++◌, IfOk, OnOk, OnErr, length, take, Option};
ghost use Rattle.con_outside.specs.Outside.{Rose, then_written, WroteFront, WrotePart};
ghost use Rattle.con_trace.specs.Audit.{a_run, no_run, found_data, found_text};
ghost use Rattle.con_trace.specs.Words.Audit.{found_of};
ghost use Rattle.con_lines.specs.Line.{ended};
ghost use Rattle.con_lines.specs.Writing.{put, nothing_written};

use con_lines::Line;
use con_lines::ending::owned;
use con_outside::{Fault, Sink, write_whole};
use con_units::OutOfMemory;
use std::alloc::Global;

/// What an audit found.
#[derive(Drop)]
pub enum AuditLine {
    /// It is a run.
    Yes,
    /// It is none: at this place this part does not hold.
    No { place: u64, part: &'static str },
}

/// What an audit found.
#[tactic(auto, using(con_lines::proofs::Puts::arrays), unfolding(json::specs::Print::escape_byte))]
fn audit_line(line: &mut Line, alloc: Global, found: &AuditLine) -> Result<(), OutOfMemory>
    ensures { IfOk result (λ _. line.new ≡ put line.old (found_data (found_of found.now))) }
{
    match found {
        AuditLine::Yes => {
            given!(line.open_with("audit"));
            given!(line.word("yes"));
            line.shut()
        }
        AuditLine::No { place, part } => {
            given!(line.open_with("audit"));
            given!(line.word("no"));
            given!(line.natural(*place));
            given!(line.any_text(alloc, given!(owned(alloc, part))));
            line.shut()
        }
    }
}

/// What an audit found, with its line feed, where nothing is written yet.
#[tactic(auto, unfolding(crate::specs::Audit::found_text, con_lines::specs::Writing::put, con_lines::specs::Writing::more))]
fn ended_audit(line: &mut Line, alloc: Global, found: &AuditLine) -> Result<(), OutOfMemory>
    requires { line.old ≡ nothing_written }
    ensures { IfOk result (λ _. line.new.bytes ≡ ended (found_text (found_of found.now))) }
{
    given!(audit_line(line, alloc, found));
    line.append(b"\n")
}

/// Writes the line that tells what an audit found, with its line feed. After a refusal a front of the line was written, and never all of it.
#[tactic(auto, using(crate::proofs::Ended::nothing_yet))]
pub fn write_audit<R: Sink>(alloc: Global, out: &mut R, found: &AuditLine) -> Result<(), Fault>
    ensures front { WroteFront (ended (found_text (found_of found.now))) (R.written out.old) (R.written out.new) }
    ensures whole { OnOk result (R.written out.new ≡ then_written (R.written out.old) (ended (found_text (found_of found.now)))) }
    ensures part { OnErr result (WrotePart (ended (found_text (found_of found.now))) (R.written out.old) (R.written out.new)) }
    ensures failed { result ≡ Err Fault.Failed → Rose (R.faults out.old) (R.faults out.new) }
    ensures never_falls { R.faults out.old ≤ R.faults out.new }
{
    let mut line = Line::new(alloc);
    let Ok(()) = ended_audit(&mut line, alloc, found) else {
        return Err(Fault::OutOfMemory);
    };
    write_whole(out, line.as_slice())
}
