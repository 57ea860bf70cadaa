//! The last line of a report, written.

ghost use Rattle.std.specs.Prelude.{◌≡◌, ◌≤◌, List, [], ◌∷◌, ◌++◌, IfOk, OnOk, OnErr, length, take, Option};
ghost use Rattle.con_outside.specs.Outside.{Rose, then_written, WroteFront, WrotePart};
ghost use Rattle.con_lines.specs.Ending.{at_frame as frame_ending, ending_data, ending_text};
ghost use Rattle.con_lines.specs.Words.Ending.{ending_of};
ghost use Rattle.con_lines.specs.Line.{ended};
ghost use Rattle.con_lines.specs.Writing.{put, nothing_written};

use con_lines::ending::{kind_word, owned, spelled};
use con_lines::{EndLine, Line};
use con_outside::{Fault, Sink, write_whole};
use con_units::{FrameFault, OutOfMemory};
use std::alloc::Global;

/// Status 8, with the place and kind of a fault of the link.
#[tactic(auto, using(con_lines::proofs::Puts::arrays), unfolding(json::specs::Print::escape_byte))]
pub fn at_frame(line: &mut Line, place: u64, kind: FrameFault) -> Result<(), OutOfMemory>
    ensures { IfOk result (λ _. line.new ≡ put line.old (ending_data (frame_ending place kind))) }
{
    given!(line.open_with("end"));
    given!(line.natural(8));
    given!(line.natural(place));
    given!(line.word(kind_word(kind)));
    line.shut()
}

/// The last line.
fn end_line(line: &mut Line, alloc: Global, end: &EndLine) -> Result<(), OutOfMemory>
    ensures { IfOk result (λ _. line.new ≡ put line.old (ending_data (ending_of end.now))) }
{
    match end {
        EndLine::Plain(status) => line.alone(*status),
        EndLine::Word(status, text) => line.worded(alloc, *status, given!(owned(alloc, text))),
        EndLine::Path(units) => line.worded(alloc, 3, given!(spelled(alloc, units))),
        EndLine::Frame(place, kind) => at_frame(line, *place, *kind),
    }
}

/// The last line, with its line feed, where nothing is written yet.
#[tactic(auto, unfolding(con_lines::specs::Ending::ending_text, con_lines::specs::Writing::put, con_lines::specs::Writing::more))]
fn ended_end(line: &mut Line, alloc: Global, end: &EndLine) -> Result<(), OutOfMemory>
    requires { line.old ≡ nothing_written }
    ensures { IfOk result (λ _. line.new.bytes ≡ ended (ending_text (ending_of end.now))) }
{
    given!(end_line(line, alloc, end));
    line.append(b"\n")
}

/// Writes the last line, with its line feed. After a refusal a front of the line was written, and never all of it.
#[tactic(auto, using(crate::proofs::Ended::nothing_yet))]
pub fn write_end<R: Sink>(alloc: Global, out: &mut R, end: &EndLine) -> Result<(), Fault>
    ensures front { WroteFront (ended (ending_text (ending_of end.now))) (R.written out.old) (R.written out.new) }
    ensures whole { OnOk result (R.written out.new ≡ then_written (R.written out.old) (ended (ending_text (ending_of end.now)))) }
    ensures part { OnErr result (WrotePart (ended (ending_text (ending_of end.now))) (R.written out.old) (R.written out.new)) }
    ensures failed { result ≡ Err Fault.Failed → Rose (R.faults out.old) (R.faults out.new) }
    ensures never_falls { R.faults out.old ≤ R.faults out.new }
{
    let mut line = Line::new(alloc);
    let Ok(()) = ended_end(&mut line, alloc, end) else {
        return Err(Fault::OutOfMemory);
    };
    write_whole(out, line.as_slice())
}
