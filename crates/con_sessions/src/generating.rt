//! `gen`: the generated session of a number, by turns, with its summary as the report.

ghost use Rattle.std.specs.Prelude.{◌≡◌, ◌≤◌, [], true, IfOk, length};
ghost use Rattle.con_machine.specs.Follows.{session_start};
ghost use Rattle.con_machine.specs.History.{is_legal};
ghost use Rattle.con_machine.specs.Turns.{paints};
ghost use Rattle.con_outside.specs.Outside.{Rose};
ghost use Rattle.con_sessions.specs.Generating.{Generated, GeneratedRun, summary_of};
ghost use Rattle.con_sessions.specs.Summary.{summary_text};

use crate::summary::summary;
use con_actors::Outcome;
use con_ending::{DONE, MEMORY, REPORT, TERMINAL, close, status_after};
use con_events::{End, Session};
use con_laws::once::each_record_is_taken_once;
use con_outside::{Fault, Sink, SureSink, SureSource, write_whole};
use con_script::generated;
use con_session::run_solo;
use con_trace::EndLine;
use con_units::{Bytes, OutOfMemory};
use std::alloc::Global;

/// A generated session that has run: the bytes of its frames, and its summary.
#[derive(Drop)]
pub struct Generation {
    stream: Vec<u8>,
    summary: Vec<u8>,
}

// Whether all was done.
fn is_done(end: End) -> bool
    ensures { result ≡ true → end ≡ End.Done }
{
    matches!(end, End::Done)
}

// What a session left that ran without handlers, and whose stream this is.
fn finished(
    alloc: Global,
    session: &Session,
    outcome: &Outcome,
    stream: Vec<u8>,
) -> Result<Generation, OutOfMemory>
    requires legal { is_legal (session_start session.now []) outcome.now.entries ≡ true }
    requires painted { length outcome.now.ends ≡ paints outcome.now.entries }
    ensures { IfOk result (λ g. (g.stream.items ≡ stream.items)
        × (g.summary.items ≡ summary_text session.now outcome.now.entries outcome.now.replies stream.items)) }
{
    let summary = summary(alloc, session, outcome, stream.as_slice())?;
    Ok(Generation { stream, summary })
}

// Runs the session of a number. Its link is at its end, and neither that nor its terminal fails, so that it ends when all is done, or
// for want of memory.
fn run(alloc: Global, seed: u32) -> Result<Generation, OutOfMemory>
    ensures { IfOk result (λ g. (run : GeneratedRun seed) × (g.stream.items ≡ run.stream) × (g.summary.items ≡ summary_of seed run)) }
{
    each_record_is_taken_once();
    let session = generated(alloc, seed)?;
    let mut link = SureSource {
        bytes: Bytes(Vec::new(alloc)),
        at: 0,
    };
    let mut term = SureSink {
        written: Bytes(Vec::new(alloc)),
    };
    let outcome = run_solo(alloc, &session, &mut link, &mut term, Vec::new(alloc));
    if !is_done(outcome.end) {
        return Err(OutOfMemory);
    }
    finished(alloc, &session, &outcome, term.written.into_vec())
}

/// Runs the generated session of a number by turns, without a link: its stream to the terminal, its summary to the report. The stream is
/// kept until the session has ended.
pub fn host_gen<O: Sink, R: Sink>(alloc: Global, seed: u32, term: &mut O, report: &mut R) -> u8
    ensures outcome { Generated result seed (O.written term.old) (O.written term.new) (R.written report.old) (R.written report.new)
        (Rose (R.faults report.old) (R.faults report.new)) }
    ensures term_failed { result ≡ TERMINAL → Rose (O.faults term.old) (O.faults term.new) }
    ensures report_failed { result ≡ REPORT → Rose (R.faults report.old) (R.faults report.new) }
    ensures never_fall { (O.faults term.old ≤ O.faults term.new) × (R.faults report.old ≤ R.faults report.new) }
{
    let Ok(run) = run(alloc, seed) else {
        return MEMORY;
    };
    match write_whole(term, run.stream.as_slice()) {
        Ok(()) => {}
        Err(Fault::Failed) => return close(alloc, report, &EndLine::Word(TERMINAL, "term")),
        Err(Fault::OutOfMemory) => return MEMORY,
    }
    status_after(write_whole(report, run.summary.as_slice()), DONE)
}
