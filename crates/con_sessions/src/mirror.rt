//! `mirror`: the session of a file, by turns, with a second terminal, and with its history as the report.

ghost use Rattle.std.specs.Prelude.{◌≡◌, ◌≤◌, ◌<◌, ◌⊎◌, ℕ, List, Some, All, IfSome, length, map};
ghost use Rattle.con_events.specs.Session.{Clients};
ghost use Rattle.con_events.specs.declared.end.End.{End as Ended};
ghost use Rattle.con_outside.specs.Outside.{Rose, then_left, WroteFront};
ghost use Rattle.con_ending.specs.Ending.{Reported};
ghost use Rattle.con_sessions.specs.Foretold.{HasNoMirrorFrame, IsSession, MirrorForetells};
ghost use Rattle.con_sessions.specs.Mirroring.{HasMirrored, RanMirrored, mirror_report};
ghost use Rattle.con_telling.specs.Telling.{ended_report, ending_after, mirror_ending};
ghost use Rattle.con_actors.specs.Worker.{told_kind};
ghost use Rattle.con_lines.specs.Ending.{status_of};

use crate::session::write_outcome;
use con_actors::Outcome;
use con_ending::{Unrun, close, session_of};
use con_events::Session;
use con_forms::{a_legal_history_is_told, types_are_kept};
use con_handlers::CtrlHandler;
use con_laws::once::each_record_is_taken_once;
use con_link::{one_mirror_answer, one_mirror_frame};
use con_outside::{Files, Sink, Source};
use con_session::run_mirrored;
use con_telling::{mirror_last_of, status_by};
use con_trace::report_tells;
use std::alloc::Global;

// Writes the report of a session whose second terminal may have failed, and answers its status.
fn tell_mirrored<R: Sink>(alloc: Global, outcome: &Outcome, lost: bool, report: &mut R) -> u8
    ensures reported { Reported result (status_of (mirror_ending outcome.now.end lost))
        (ended_report outcome.now.entries outcome.now.replies outcome.now.ends (mirror_ending outcome.now.end lost)) (R.written report.old)
        (R.written report.new) (Rose (R.faults report.old) (R.faults report.new)) }
    ensures told { WroteFront (mirror_report outcome.now.entries outcome.now.replies outcome.now.ends outcome.now.end lost) (R.written report.old)
        (R.written report.new) }
    ensures never_falls { R.faults report.old ≤ R.faults report.new }
{
    let last = mirror_last_of(outcome.end, lost);
    let written = write_outcome(alloc, outcome, &last, report);
    status_by(written, &last)
}

// Runs the session and writes its report.
fn run<I: Source, O: Sink, N: Sink, R: Sink>(
    alloc: Global,
    session: &Session,
    link: &mut I,
    term: &mut O,
    second: &mut N,
    report: &mut R,
    racks: Vec<Vec<Box<dyn CtrlHandler + Send>>>,
) -> u8
    requires few { All (λ rack. length rack.items ≤ 255) racks.items }
    ensures ran { RanMirrored result session.now (map (λ rack. map (λ b. told_kind (memory b)) rack.items) racks.items) (I.left link.old)
        (I.left link.new) (O.written term.old) (O.written term.new) (N.written second.old) (N.written second.new) (R.written report.old)
        (R.written report.new) (Rose (R.faults report.old) (R.faults report.new)) (Rose (N.faults second.old) (N.faults second.new)) }
    ensures link_failed { result ≡ 4 → Rose (I.faults link.old) (I.faults link.new) }
    ensures term_failed { result ≡ 5 → Rose (O.faults term.old) (O.faults term.new) }
    ensures report_failed { result ≡ 6 → Rose (R.faults report.old) (R.faults report.new) }
    ensures second_failed { result ≡ 12 → Rose (N.faults second.old) (N.faults second.new) }
    ensures foretold { (bytes : List ℕ) (end : Ended) → I.left link.old ≡ Some bytes → MirrorForetells bytes end
        → ¬ (Rose (I.faults link.old) (I.faults link.new)) → ¬ (Rose (O.faults term.old) (O.faults term.new))
        → ¬ (Rose (N.faults second.old) (N.faults second.new)) → ¬ (Rose (R.faults report.old) (R.faults report.new))
        → (result ≡ status_of (ending_after end)) ⊎ (result ≡ 9) }
    ensures no_frame { result ≡ 8 → IfSome (I.left link.old) HasNoMirrorFrame }
    ensures too_long { result ≡ 10 → (taken : List ℕ) × (I.left link.old ≡ then_left taken (I.left link.new)) × (16777216 < length taken) }
    ensures never_fall { (I.faults link.old ≤ I.faults link.new) × (O.faults term.old ≤ O.faults term.new)
        × (N.faults second.old ≤ N.faults second.new) × (R.faults report.old ≤ R.faults report.new) }
{
    one_mirror_answer();
    one_mirror_frame();
    each_record_is_taken_once();
    a_legal_history_is_told();
    report_tells();
    let mirrored = run_mirrored(alloc, session, link, term, second, racks);
    types_are_kept(
        &mirrored.outcome.entries,
        &mirrored.outcome.replies,
        &mirrored.outcome.ends,
        mirrored.outcome.end,
    );
    tell_mirrored(alloc, &mirrored.outcome, mirrored.failed, report)
}

/// Runs the session of a file by turns, with a second terminal that attaches and detaches by frames of the link: the stream to the terminal, the part of each
/// picture that the second one shows to `second`, the history to the report.
pub fn host_mirror<F: Files, I: Source, O: Sink, N: Sink, R: Sink>(
    alloc: Global,
    name: &str,
    files: &mut F,
    link: &mut I,
    term: &mut O,
    second: &mut N,
    report: &mut R,
    racks: Vec<Vec<Box<dyn CtrlHandler + Send>>>,
) -> u8
    requires few { All (λ rack. length rack.items ≤ 255) racks.items }
    ensures outcome { HasMirrored result (F.files files.old) name.now (Rose (F.faults files.old) (F.faults files.new))
        (map (λ rack. map (λ b. told_kind (memory b)) rack.items) racks.items) (I.left link.old) (I.left link.new) (O.written term.old)
        (O.written term.new) (N.written second.old) (N.written second.new) (R.written report.old) (R.written report.new)
        (Rose (R.faults report.old) (R.faults report.new)) (Rose (N.faults second.old) (N.faults second.new)) }
    ensures link_failed { result ≡ 4 → Rose (I.faults link.old) (I.faults link.new) }
    ensures term_failed { result ≡ 5 → Rose (O.faults term.old) (O.faults term.new) }
    ensures report_failed { result ≡ 6 → Rose (R.faults report.old) (R.faults report.new) }
    ensures second_failed { result ≡ 12 → Rose (N.faults second.old) (N.faults second.new) }
    ensures foretold { (session : Clients) (bytes : List ℕ) (end : Ended) → IsSession (F.files files.old) name.now session
        → I.left link.old ≡ Some bytes → MirrorForetells bytes end
        → ¬ (Rose (F.faults files.old) (F.faults files.new)) → ¬ (Rose (I.faults link.old) (I.faults link.new))
        → ¬ (Rose (O.faults term.old) (O.faults term.new)) → ¬ (Rose (N.faults second.old) (N.faults second.new))
        → ¬ (Rose (R.faults report.old) (R.faults report.new))
        → (result ≡ status_of (ending_after end)) ⊎ (result ≡ 9) }
    ensures no_frame { result ≡ 8 → IfSome (I.left link.old) HasNoMirrorFrame }
    ensures too_long { result ≡ 10 → (taken : List ℕ) × (I.left link.old ≡ then_left taken (I.left link.new)) × (16777216 < length taken) }
    ensures never_fall { (F.faults files.old ≤ F.faults files.new) × (I.faults link.old ≤ I.faults link.new)
        × (O.faults term.old ≤ O.faults term.new) × (N.faults second.old ≤ N.faults second.new) × (R.faults report.old ≤ R.faults report.new) }
{
    match session_of(alloc, name, files) {
        Ok(session) => run(alloc, &session, link, term, second, report, racks),
        Err(Unrun::Told(last)) => close(alloc, report, &last),
        Err(Unrun::OutOfMemory) => 9,
    }
}
