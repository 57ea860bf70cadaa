//! A whole report, written.

ghost use Rattle.std.specs.Prelude.{◌≡◌, ◌≤◌, true, OnOk, OnErr};
ghost use Rattle.con_outside.specs.Outside.{Rose, then_written, WroteFront, WrotePart};
ghost use Rattle.con_lines.specs.Words.Ending.{ending_of};
ghost use Rattle.con_trace.specs.Report.{said, report};
ghost use Rattle.con_trace.specs.Words.Report.{end_of, ends_behind};
ghost use Rattle.con_forms.specs.Told.{has_end, is_told, told};
ghost use Rattle.con_telling.specs.Telling.{lines_text, told_report};

use con_events::{Entry, Event, Reply};
use con_outside::{Fault, Sink};
use con_trace::{EndLine, write_end, write_entry};
use std::alloc::Global;

/// Whether one of the lengths that are still to come is an event's, if it is a picture.
fn has_end(event: &Event, ends: &[u64]) -> bool
    ensures { result ≡ has_end event.now ends.now }
{
    match event {
        Event::Paint => !ends.is_empty(),
        _ => true,
    }
}

/// The stream's length after an event, out of those that are still to come, if it is a picture.
fn end_after(event: &Event, ends: &[u64]) -> u64
    ensures { result ≡ end_of event.now ends.now }
{
    match event {
        Event::Paint => match ends {
            [end, ..] => *end,
            [] => 0,
        },
        _ => 0,
    }
}

/// The lengths that are still to come behind an event.
fn behind<'a>(event: &Event, ends: &'a [u64]) -> &'a [u64]
    ensures { result.now ≡ ends_behind event.now ends.now }
{
    match event {
        Event::Paint => match ends {
            [_, later @ ..] => later,
            [] => ends,
        },
        _ => ends,
    }
}

/// Writes a line for each event and its reply, up to a picture of which there was no frame for want of memory.
fn write_lines<R: Sink>(
    alloc: Global,
    out: &mut R,
    entries: &[Entry],
    replies: &[Reply],
    ends: &[u64],
) -> Result<(), Fault>
    ensures front { WroteFront (lines_text (said entries.now replies.now ends.now)) (R.written out.old) (R.written out.new) }
    ensures told { WroteFront (lines_text (told entries.now replies.now ends.now)) (R.written out.old) (R.written out.new) }
    ensures whole { OnOk result (R.written out.new ≡ then_written (R.written out.old) (lines_text (said entries.now replies.now ends.now))) }
    ensures all { OnOk result (is_told entries.now replies.now ends.now ≡ true) }
    ensures failed { result ≡ Err Fault.Failed → Rose (R.faults out.old) (R.faults out.new) }
    ensures never_falls { R.faults out.old ≤ R.faults out.new }
{
    let mut coming = entries;
    let mut answers = replies;
    let mut lengths = ends;
    while let [entry, later @ ..] = coming {
        let [reply, more @ ..] = answers else {
            return Ok(());
        };
        if !has_end(&entry.event, lengths) {
            return Err(Fault::OutOfMemory);
        }
        let end = end_after(&entry.event, lengths);
        write_entry(alloc, out, entry, reply, end)?;
        lengths = behind(&entry.event, lengths);
        answers = more;
        coming = later;
    }
    Ok(())
}

/// Writes a report: a line for each event and its reply, with the stream's length after each picture, and then the last line.
/// It ends before a picture that has no length. After a refusal a front of the report was written, and never all of it.
pub fn write_report<R: Sink>(
    alloc: Global,
    out: &mut R,
    entries: &[Entry],
    replies: &[Reply],
    ends: &[u64],
    last: &EndLine,
) -> Result<(), Fault>
    ensures front { WroteFront (report (said entries.now replies.now ends.now) (ending_of last.now)) (R.written out.old) (R.written out.new) }
    ensures told { WroteFront (told_report entries.now replies.now ends.now (ending_of last.now)) (R.written out.old) (R.written out.new) }
    ensures whole { OnOk result (R.written out.new ≡ then_written (R.written out.old) (report (said entries.now replies.now ends.now) (ending_of last.now))) }
    ensures part { OnErr result (WrotePart (report (said entries.now replies.now ends.now) (ending_of last.now)) (R.written out.old) (R.written out.new)) }
    ensures failed { result ≡ Err Fault.Failed → Rose (R.faults out.old) (R.faults out.new) }
    ensures never_falls { R.faults out.old ≤ R.faults out.new }
{
    write_lines(alloc, out, entries, replies, ends)?;
    write_end(alloc, out, last)
}
