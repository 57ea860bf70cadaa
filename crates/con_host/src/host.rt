//! The top call.

ghost use Rattle.std.specs.Prelude.{◌≡◌, ◌≢◌, ℕ, ◌+◌, ◌<◌, ◌≤◌, ◌⊎◌, ◌↔◌, List, [], All, length, map, Some, None, IfSome, IsNone, IsTrue, codes, string_bytes};
ghost use Rattle.con_outside.specs.Outside.{Rose, then_left};
ghost use Rattle.con_actors.specs.Worker.{told_kind};
ghost use Rattle.con_events.specs.Session.{Clients};
ghost use Rattle.con_events.specs.declared.end.End.{End};
ghost use Rattle.con_lines.specs.Ending.{status_of, worded};
ghost use Rattle.con_units.specs.declared.place.Size.{Size};
ghost use Rattle.con_ending.specs.Ending.{Tells};
ghost use Rattle.con_sessions.specs.Foretold.{Foretells, HasNoFrame, HasNoMirrorFrame, IsSession, MirrorForetells};
ghost use Rattle.con_telling.specs.Telling.{ending_after};
ghost use Rattle.con_inspect.specs.Auditing.{IsComplete};
ghost use Rattle.con_inspect.specs.Four.{four_of};
ghost use Rattle.con_words.specs.Words.{form_of, typing, playing, running, solo, mirroring, generating, auditing};
ghost use Rattle.con_host.specs.Hosting.{Hosted};

use con_ending::{LINK, MEMORY, MIRROR, REPORT, TERMINAL, TOO_LONG, USAGE, close};
use con_handlers::CtrlHandler;
use con_inspect::host_audit;
use con_outside::{Files, Gate, Sink, Source};
use con_sessions::{host_gen, host_mirror, host_run, host_solo};
use con_text::{host_play, host_type};
use con_trace::EndLine;
use con_units::OutOfMemory;
use con_words::Form;
use std::alloc::Global;
use std::sync::Wait;
use std::thread::Threads;

// Says that the words are no form.
fn refuse<R: Sink>(alloc: Global, report: &mut R) -> u8
    ensures tells { Tells result (worded 2 (codes "usage")) (R.written report.old) (R.written report.new) (Rose (R.faults report.old) (R.faults report.new)) }
    ensures status { (result ≡ USAGE) ⊎ (result ≡ MEMORY) }
    ensures never_falls { R.faults report.old ≤ R.faults report.new }
{
    close(alloc, report, &EndLine::Word(USAGE, "usage"))
}

/// Does what the words say, and answers the status: 0 done, 2 the words are no form, 3 the file is no session, 4 the link failed, 5 the
/// terminal failed, 6 the report failed, 7 the file could not be read, 8 the link has no frame at a place, 9 there was no memory, 10 the link
/// has more than 16,777,216 bytes, 12 the second terminal of `mirror` failed, 13 the files of `audit` are no run. `racks` are the handlers
/// that a session's clients may add, by place; `second` is the second terminal of `mirror`, and by other words nothing is written to it; `rt`
/// makes the threads of `run`, and `gate` is called round each step of its scripts.
pub fn console_host<
    T: Threads + Wait + Sync,
    F: Files,
    I: Source + Send,
    O: Sink + Send,
    N: Sink,
    R: Sink,
    G: Gate,
>(
    rt: &T,
    alloc: Global,
    words: &[String],
    files: &mut F,
    link: &mut I,
    term: &mut O,
    second: &mut N,
    report: &mut R,
    racks: Vec<Vec<Box<dyn CtrlHandler + Send>>>,
    gate: &G,
) -> u8
    requires few { All (λ rack. length rack.items ≤ 255) racks.items }
    ensures outcome { Hosted result (form_of (map string_bytes words.now)) (F.files files.old) (Rose (F.faults files.old) (F.faults files.new))
        (map (λ rack. map (λ b. told_kind (memory b)) rack.items) racks.items) (I.left link.old) (I.left link.new) (O.written term.old)
        (O.written term.new) (N.written second.old) (N.written second.new) (R.written report.old) (R.written report.new)
        (Rose (R.faults report.old) (R.faults report.new)) (Rose (N.faults second.old) (N.faults second.new)) }
    ensures usage { result ≡ USAGE → form_of (map string_bytes words.now) ≡ None }
    ensures no_form { form_of (map string_bytes words.now) ≡ None → (result ≡ USAGE) ⊎ (result ≡ 9) }
    ensures link_failed { result ≡ LINK → Rose (I.faults link.old) (I.faults link.new) }
    ensures term_failed { result ≡ TERMINAL → Rose (O.faults term.old) (O.faults term.new) }
    ensures report_failed { result ≡ REPORT → Rose (R.faults report.old) (R.faults report.new) }
    ensures second_failed { result ≡ MIRROR → Rose (N.faults second.old) (N.faults second.new) }
    ensures type_complete { form_of (map string_bytes words.now) ≡ Some typing → ¬ (Rose (I.faults link.old) (I.faults link.new))
        → ¬ (Rose (O.faults term.old) (O.faults term.new)) → ¬ (Rose (R.faults report.old) (R.faults report.new))
        → IfSome (I.left link.old) (λ bytes. length bytes ≤ 16777216 → (result ≡ 0) ⊎ (result ≡ 9)) }
    ensures play_complete { (size : Size) → form_of (map string_bytes words.now) ≡ Some (playing size)
        → ¬ (Rose (I.faults link.old) (I.faults link.new)) → ¬ (Rose (O.faults term.old) (O.faults term.new))
        → ¬ (Rose (R.faults report.old) (R.faults report.new))
        → IfSome (I.left link.old) (λ bytes. length bytes ≤ 16777216 → (result ≡ 0) ⊎ (result ≡ 9)) }
    ensures run_foretold { (name : List ℕ) (session : Clients) (bytes : List ℕ) (end : End)
        → form_of (map string_bytes words.now) ≡ Some (running name) → IsSession (F.files files.old) name session
        → I.left link.old ≡ Some bytes → Foretells bytes end
        → ¬ (Rose (F.faults files.old) (F.faults files.new)) → ¬ (Rose (I.faults link.old) (I.faults link.new))
        → ¬ (Rose (O.faults term.old) (O.faults term.new)) → ¬ (Rose (R.faults report.old) (R.faults report.new))
        → (result ≡ status_of (ending_after end)) ⊎ (result ≡ 9) }
    ensures solo_foretold { (name : List ℕ) (session : Clients) (bytes : List ℕ) (end : End)
        → form_of (map string_bytes words.now) ≡ Some (solo name) → IsSession (F.files files.old) name session
        → I.left link.old ≡ Some bytes → Foretells bytes end
        → ¬ (Rose (F.faults files.old) (F.faults files.new)) → ¬ (Rose (I.faults link.old) (I.faults link.new))
        → ¬ (Rose (O.faults term.old) (O.faults term.new)) → ¬ (Rose (R.faults report.old) (R.faults report.new))
        → (result ≡ status_of (ending_after end)) ⊎ (result ≡ 9) }
    ensures mirror_foretold { (name : List ℕ) (session : Clients) (bytes : List ℕ) (end : End)
        → form_of (map string_bytes words.now) ≡ Some (mirroring name) → IsSession (F.files files.old) name session
        → I.left link.old ≡ Some bytes → MirrorForetells bytes end
        → ¬ (Rose (F.faults files.old) (F.faults files.new)) → ¬ (Rose (I.faults link.old) (I.faults link.new))
        → ¬ (Rose (O.faults term.old) (O.faults term.new)) → ¬ (Rose (N.faults second.old) (N.faults second.new))
        → ¬ (Rose (R.faults report.old) (R.faults report.new))
        → (result ≡ status_of (ending_after end)) ⊎ (result ≡ 9) }
    ensures no_frame { ((name : List ℕ) → form_of (map string_bytes words.now) ≢ Some (mirroring name)) → result ≡ 8 → IfSome (I.left link.old) HasNoFrame }
    ensures no_mirror_frame { (name : List ℕ) → form_of (map string_bytes words.now) ≡ Some (mirroring name) → result ≡ 8
        → IfSome (I.left link.old) HasNoMirrorFrame }
    ensures too_long { result ≡ TOO_LONG → (taken : List ℕ) × (I.left link.old ≡ then_left taken (I.left link.new)) × (16777216 < length taken) }
    ensures audit_complete { (session link stream trace : List ℕ) → form_of (map string_bytes words.now) ≡ Some (auditing session link stream trace)
        → IsComplete result (F.files files.old) (four_of session link stream trace) (Rose (F.faults files.old) (F.faults files.new))
        (Rose (R.faults report.old) (R.faults report.new)) }
    ensures gen_complete { (seed : ℕ) → form_of (map string_bytes words.now) ≡ Some (generating seed)
        → ¬ (Rose (O.faults term.old) (O.faults term.new)) → ¬ (Rose (R.faults report.old) (R.faults report.new)) → (result ≡ 0) ⊎ (result ≡ 9) }
{
    match Form::of(alloc, words) {
        Err(OutOfMemory) => MEMORY,
        Ok(None) => refuse(alloc, report),
        Ok(Some(Form::Type)) => host_type(alloc, link, term, report),
        Ok(Some(Form::Play(size))) => host_play(alloc, size, link, report),
        Ok(Some(Form::Run(name))) => {
            host_run(rt, alloc, name, files, link, term, report, racks, gate)
        }
        Ok(Some(Form::Solo(name))) => host_solo(alloc, name, files, link, term, report, racks),
        Ok(Some(Form::Mirror(name))) => {
            host_mirror(alloc, name, files, link, term, second, report, racks)
        }
        Ok(Some(Form::Gen(seed))) => host_gen(alloc, seed, term, report),
        Ok(
            Some(
                Form::Audit {
                    session,
                    link,
                    stream,
                    report: trace,
                },
            ),
        ) => host_audit(alloc, session, link, stream, trace, files, report),
    }
}
