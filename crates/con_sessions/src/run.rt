//! `run`: the session of a file, by threads, with its history as the report.

ghost use Rattle.std.specs.Prelude.{◌≡◌, ◌≤◌, ◌<◌, ◌⊎◌, ℕ, List, Some, All, IfSome, length, map};
ghost use Rattle.con_events.specs.Session.{Clients};
ghost use Rattle.con_events.specs.declared.end.End.{End as Ended};
ghost use Rattle.con_outside.specs.Outside.{Rose, then_left};
ghost use Rattle.con_sessions.specs.Foretold.{Foretells, HasNoFrame, IsSession};
ghost use Rattle.con_lines.specs.Ending.{status_of};
ghost use Rattle.con_actors.specs.Worker.{told_kind};
ghost use Rattle.con_sessions.specs.Sessions.{HasRun, Ran};
ghost use Rattle.con_telling.specs.Telling.{ending_after};

use crate::session::tell;
use con_ending::{Unrun, close, session_of};
use con_events::Session;
use con_forms::{a_legal_history_is_told, types_are_kept};
use con_handlers::CtrlHandler;
use con_laws::once::each_record_is_taken_once;
use con_link::{one_answer, one_frame};
use con_outside::{Files, Gate, Sink, Source};
use con_run::run_session;
use con_trace::report_tells;
use std::alloc::Global;
use std::sync::Wait;
use std::thread::Threads;

// Runs the session and writes its report.
fn run<T: Threads + Wait + Sync, I: Source + Send, O: Sink + Send, R: Sink, G: Gate>(
    rt: &T,
    alloc: Global,
    session: &Session,
    link: &mut I,
    term: &mut O,
    report: &mut R,
    racks: Vec<Vec<Box<dyn CtrlHandler + Send>>>,
    gate: &G,
) -> u8
    requires few { All (λ rack. length rack.items ≤ 255) racks.items }
    ensures ran { Ran result session.now (map (λ rack. map (λ b. told_kind (memory b)) rack.items) racks.items) (I.left link.old) (I.left link.new)
        (O.written term.old) (O.written term.new) (R.written report.old) (R.written report.new) (Rose (R.faults report.old) (R.faults report.new)) }
    ensures link_failed { result ≡ 4 → Rose (I.faults link.old) (I.faults link.new) }
    ensures term_failed { result ≡ 5 → Rose (O.faults term.old) (O.faults term.new) }
    ensures report_failed { result ≡ 6 → Rose (R.faults report.old) (R.faults report.new) }
    ensures foretold { (bytes : List ℕ) (end : Ended) → I.left link.old ≡ Some bytes → Foretells bytes end
        → ¬ (Rose (I.faults link.old) (I.faults link.new)) → ¬ (Rose (O.faults term.old) (O.faults term.new))
        → ¬ (Rose (R.faults report.old) (R.faults report.new))
        → (result ≡ status_of (ending_after end)) ⊎ (result ≡ 9) }
    ensures no_frame { result ≡ 8 → IfSome (I.left link.old) HasNoFrame }
    ensures too_long { result ≡ 10 → (taken : List ℕ) × (I.left link.old ≡ then_left taken (I.left link.new)) × (16777216 < length taken) }
    ensures never_fall { (I.faults link.old ≤ I.faults link.new) × (O.faults term.old ≤ O.faults term.new) × (R.faults report.old ≤ R.faults report.new) }
{
    one_answer();
    one_frame();
    each_record_is_taken_once();
    a_legal_history_is_told();
    report_tells();
    let outcome = run_session(rt, alloc, session, link, term, racks, gate);
    types_are_kept(
        &outcome.entries,
        &outcome.replies,
        &outcome.ends,
        outcome.end,
    );
    tell(alloc, &outcome, report)
}

/// Runs the session of a file by threads: the stream to the terminal, the history to the report. `gate` is called round each step of a script.
pub fn host_run<
    T: Threads + Wait + Sync,
    F: Files,
    I: Source + Send,
    O: Sink + Send,
    R: Sink,
    G: Gate,
>(
    rt: &T,
    alloc: Global,
    name: &str,
    files: &mut F,
    link: &mut I,
    term: &mut O,
    report: &mut R,
    racks: Vec<Vec<Box<dyn CtrlHandler + Send>>>,
    gate: &G,
) -> u8
    requires few { All (λ rack. length rack.items ≤ 255) racks.items }
    ensures outcome { HasRun result (F.files files.old) name.now (Rose (F.faults files.old) (F.faults files.new))
        (map (λ rack. map (λ b. told_kind (memory b)) rack.items) racks.items) (I.left link.old) (I.left link.new) (O.written term.old)
        (O.written term.new) (R.written report.old) (R.written report.new) (Rose (R.faults report.old) (R.faults report.new)) }
    ensures link_failed { result ≡ 4 → Rose (I.faults link.old) (I.faults link.new) }
    ensures term_failed { result ≡ 5 → Rose (O.faults term.old) (O.faults term.new) }
    ensures report_failed { result ≡ 6 → Rose (R.faults report.old) (R.faults report.new) }
    ensures foretold { (session : Clients) (bytes : List ℕ) (end : Ended) → IsSession (F.files files.old) name.now session
        → I.left link.old ≡ Some bytes → Foretells bytes end
        → ¬ (Rose (F.faults files.old) (F.faults files.new)) → ¬ (Rose (I.faults link.old) (I.faults link.new))
        → ¬ (Rose (O.faults term.old) (O.faults term.new)) → ¬ (Rose (R.faults report.old) (R.faults report.new))
        → (result ≡ status_of (ending_after end)) ⊎ (result ≡ 9) }
    ensures no_frame { result ≡ 8 → IfSome (I.left link.old) HasNoFrame }
    ensures too_long { result ≡ 10 → (taken : List ℕ) × (I.left link.old ≡ then_left taken (I.left link.new)) × (16777216 < length taken) }
    ensures never_fall { (F.faults files.old ≤ F.faults files.new) × (I.faults link.old ≤ I.faults link.new)
        × (O.faults term.old ≤ O.faults term.new) × (R.faults report.old ≤ R.faults report.new) }
{
    match session_of(alloc, name, files) {
        Ok(session) => run(rt, alloc, &session, link, term, report, racks, gate),
        Err(Unrun::Told(last)) => close(alloc, report, &last),
        Err(Unrun::OutOfMemory) => 9,
    }
}
