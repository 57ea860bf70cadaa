//! The last line of a report.

ghost use Rattle.std.specs.Prelude.{◌≡◌, ◌≤◌};
ghost use Rattle.con_outside.specs.Outside.{Rose};
ghost use Rattle.con_lines.specs.Ending.{status_of};
ghost use Rattle.con_lines.specs.Words.Ending.{ending_of};
ghost use Rattle.con_ending.specs.Ending.{Tells};
ghost use Rattle.con_ending.specs.Laws.{status_after};

use con_outside::{Fault, Sink};
use con_trace::{EndLine, write_end};
use std::alloc::Global;

/// All was done.
pub const DONE: u8 = 0;
/// The words are no form.
pub const USAGE: u8 = 2;
/// The link failed.
pub const LINK: u8 = 4;
/// The terminal failed.
pub const TERMINAL: u8 = 5;
/// The report failed.
pub const REPORT: u8 = 6;
/// There was no memory.
pub const MEMORY: u8 = 9;
/// The link has more bytes than it may have.
pub const TOO_LONG: u8 = 10;
/// The second terminal of `mirror` failed.
pub const MIRROR: u8 = 12;

/// The status that a last line tells.
pub fn status_told(last: &EndLine) -> u8
    ensures { result ≡ status_of (ending_of last.now) }
{
    match last {
        EndLine::Plain(status) => *status,
        EndLine::Word(status, _) => *status,
        EndLine::Path(_) => 3,
        EndLine::Frame(_, _) => 8,
    }
}

/// The status of a call that wrote its report so: what the report tells, [`REPORT`] in place of 0 where the report failed, or [`MEMORY`].
pub fn status_after(written: Result<(), Fault>, told: u8) -> u8
    ensures { result ≡ status_after written told }
{
    match written {
        Ok(()) => told,
        Err(Fault::Failed) => { if told == DONE { REPORT } else { told } }
        Err(Fault::OutOfMemory) => MEMORY,
    }
}

/// Writes a last line alone, and answers its status, or [`MEMORY`] where there was none for it.
pub fn close<R: Sink>(alloc: Global, report: &mut R, last: &EndLine) -> u8
    ensures tells { Tells result (ending_of last.now) (R.written report.old) (R.written report.new) (Rose (R.faults report.old) (R.faults report.new)) }
    ensures never_falls { R.faults report.old ≤ R.faults report.new }
{
    let written = write_end(alloc, report, last);
    status_after(written, status_told(last))
}
