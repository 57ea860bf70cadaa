//! Callers that use each clause with entries, bytes and sinks that they do not know.

ghost use Rattle.std.specs.Prelude.{◌≡◌, ◌++◌, IfOk, IfSome, OnOk, Option};
ghost use Rattle.con_outside.specs.Outside.{then_written};
ghost use Rattle.con_lines.specs.Line.{line_text, ended};
ghost use Rattle.con_lines.specs.Ending.{Ending, IsEnding, status_of, ending_text};
ghost use Rattle.con_lines.specs.Words.Ending.{ending_of};
ghost use Rattle.con_trace.specs.Report.{History, IsHistory, report_of, IsWrongAt};

use con_events::{Entry, Reply};
use con_outside::{Fault, Sink};
use con_trace::{EndLine, TraceFault, read, write_end, write_entry};
use con_units::OutOfMemory;
use std::alloc::Global;

/// A report of one event.
pub fn short_report<R: Sink>(
    alloc: Global,
    out: &mut R,
    entry: &Entry,
    reply: &Reply,
    end: &EndLine,
) -> Result<(), Fault>
    ensures { OnOk result (R.written out.new ≡ then_written (then_written (R.written out.old) (ended (line_text entry.now reply.now 0)))
        (ended (ending_text (ending_of end.now)))) }
{
    write_entry(alloc, out, entry, reply, 0)?;
    write_end(alloc, out, end)
}

/// The first wrong line of bytes that are no report.
pub fn first_wrong(alloc: Global, bytes: &[u8]) -> Result<Option<u64>, OutOfMemory>
    ensures { IfOk result (λ found. IfSome found (λ n. IsWrongAt n bytes.now)) }
{
    match read(alloc, bytes) {
        Ok(_) => Ok(None),
        Err(TraceFault::Line(n)) => Ok(Some(n)),
        Err(TraceFault::OutOfMemory) => Err(OutOfMemory),
    }
}

/// The status of bytes that are a report.
pub fn status(alloc: Global, bytes: &[u8]) -> Result<Option<u8>, OutOfMemory>
    ensures { IfOk result (λ found. IfSome found (λ s. (h : History) × (last : Ending)
        × IsHistory h × IsEnding last × (bytes.now ≡ report_of h last) × (s ≡ status_of last))) }
{
    match read(alloc, bytes) {
        Ok(trace) => Ok(Some(trace.status)),
        Err(TraceFault::Line(_)) => Ok(None),
        Err(TraceFault::OutOfMemory) => Err(OutOfMemory),
    }
}
