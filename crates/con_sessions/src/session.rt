//! The report of a session that ran.

ghost use Rattle.std.specs.Prelude.{◌≡◌, ◌≤◌, OnOk, OnErr};
ghost use Rattle.con_outside.specs.Outside.{Rose, then_written, WroteFront, WrotePart};
ghost use Rattle.con_lines.specs.Ending.{status_of};
ghost use Rattle.con_lines.specs.Words.Ending.{ending_of};
ghost use Rattle.con_ending.specs.Ending.{Reported};
ghost use Rattle.con_telling.specs.Telling.{ended_report, ending_after, told_report};
ghost use Rattle.con_sessions.specs.Sessions.{report_text};

use con_actors::Outcome;
use con_outside::{Fault, Sink};
use con_telling::{last_of, status_by, write_report};
use con_trace::EndLine;
use std::alloc::Global;

/// Writes the report of a session that ran, with this last line.
pub fn write_outcome<R: Sink>(
    alloc: Global,
    outcome: &Outcome,
    last: &EndLine,
    report: &mut R,
) -> Result<(), Fault>
    ensures whole { OnOk result (R.written report.new
        ≡ then_written (R.written report.old) (ended_report outcome.now.entries outcome.now.replies outcome.now.ends (ending_of last.now))) }
    ensures part { OnErr result (WrotePart (ended_report outcome.now.entries outcome.now.replies outcome.now.ends (ending_of last.now))
        (R.written report.old) (R.written report.new)) }
    ensures told { WroteFront (told_report outcome.now.entries outcome.now.replies outcome.now.ends (ending_of last.now))
        (R.written report.old) (R.written report.new) }
    ensures failed { result ≡ Err Fault.Failed → Rose (R.faults report.old) (R.faults report.new) }
    ensures never_falls { R.faults report.old ≤ R.faults report.new }
{
    write_report(
        alloc,
        report,
        outcome.entries.0.as_slice(),
        outcome.replies.0.as_slice(),
        outcome.ends.0.as_slice(),
        last,
    )?;
    Ok(())
}

/// Writes the report of a session that ran, and answers its status.
pub fn tell<R: Sink>(alloc: Global, outcome: &Outcome, report: &mut R) -> u8
    ensures reported { Reported result (status_of (ending_after outcome.now.end))
        (ended_report outcome.now.entries outcome.now.replies outcome.now.ends (ending_after outcome.now.end)) (R.written report.old)
        (R.written report.new) (Rose (R.faults report.old) (R.faults report.new)) }
    ensures told { WroteFront (report_text outcome.now.entries outcome.now.replies outcome.now.ends outcome.now.end) (R.written report.old)
        (R.written report.new) }
    ensures never_falls { R.faults report.old ≤ R.faults report.new }
{
    let last = last_of(outcome.end);
    let written = write_outcome(alloc, outcome, &last, report);
    status_by(written, &last)
}
