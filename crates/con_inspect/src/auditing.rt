//! `audit`: whether four files are a run.

ghost use Rattle.std.specs.Prelude.{◌≡◌, ◌≤◌, IfOk, IfErr};
ghost use Rattle.con_outside.specs.Outside.{Rose};
ghost use Rattle.con_ending.specs.Ending.{Reported};
ghost use Rattle.con_inspect.specs.Auditing.{Judged, HasAudited, IsComplete, IsJudged, line_for, status_for};
ghost use Rattle.con_inspect.specs.Four.{four_of};
ghost use Rattle.con_inspect.specs.Words.Four.{Barred};

use crate::files::read_files;
use crate::finding::Finding;
use crate::judging::judge;
use crate::laws::one_judgement;
use con_audit::yes_is_a_run;
use con_ending::{MEMORY, Unrun, close, status_after};
use con_outside::{Files, Sink};
use con_trace::write_audit;
use std::alloc::Global;

// Writes the line of what was found, and answers the status.
fn tell<R: Sink>(alloc: Global, finding: Finding, report: &mut R) -> u8
    ensures told { Reported result (status_for (Judged.found finding)) (line_for (Judged.found finding)) (R.written report.old) (R.written report.new)
        (Rose (R.faults report.old) (R.faults report.new)) }
    ensures never_falls { R.faults report.old ≤ R.faults report.new }
{
    let written = write_audit(alloc, report, &finding.line());
    status_after(written, finding.status())
}

// What is found of the files of these names, or why there is nothing to audit.
fn found_of<F: Files>(
    alloc: Global,
    session: &str,
    link: &str,
    stream: &str,
    trace: &str,
    files: &mut F,
) -> Result<Finding, Unrun>
    ensures found { IfOk result (λ f. IsJudged (F.files files.old) (four_of session.now link.now stream.now trace.now)
        (Rose (F.faults files.old) (F.faults files.new)) (Judged.found f)) }
    ensures told { IfErr result (Barred (F.files files.old) (four_of session.now link.now stream.now trace.now)
        (Rose (F.faults files.old) (F.faults files.new))) }
    ensures never_falls { F.faults files.old ≤ F.faults files.new }
{
    match read_files(alloc, session, link, stream, trace, files) {
        Ok(contents) => judge(alloc, &contents),
        Err(unrun) => Err(unrun),
    }
}

/// Whether the files of these names, a session's document, a link, the stream of a terminal and a report, are a run: one line that says so.
pub fn host_audit<F: Files, R: Sink>(
    alloc: Global,
    session: &str,
    link: &str,
    stream: &str,
    trace: &str,
    files: &mut F,
    report: &mut R,
) -> u8
    ensures outcome { HasAudited result (F.files files.old) session.now link.now stream.now trace.now (Rose (F.faults files.old) (F.faults files.new))
        (R.written report.old) (R.written report.new) (Rose (R.faults report.old) (R.faults report.new)) }
    ensures complete { IsComplete result (F.files files.old) (four_of session.now link.now stream.now trace.now)
        (Rose (F.faults files.old) (F.faults files.new)) (Rose (R.faults report.old) (R.faults report.new)) }
    ensures report_failed { result ≡ 6 → Rose (R.faults report.old) (R.faults report.new) }
    ensures never_fall { (F.faults files.old ≤ F.faults files.new) × (R.faults report.old ≤ R.faults report.new) }
{
    yes_is_a_run();
    one_judgement();
    match found_of(alloc, session, link, stream, trace, files) {
        Ok(finding) => tell(alloc, finding, report),
        Err(Unrun::Told(last)) => close(alloc, report, &last),
        Err(Unrun::OutOfMemory) => MEMORY,
    }
}
