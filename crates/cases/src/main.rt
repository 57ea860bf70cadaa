//! Runs cases: what sessions, texts and links show, as data. The words name files of cases; README.md says how they are written. A line is
//! printed for each. The status is 0 where all are right, 1 where one differs, and 2 where a file is none of cases.
#![tactic(auto)]

/// What a call gave. Where it gave a fault, the function ends with that fault, or with the one that stands behind the call. A `?` calls two more
/// functions, to be proved at each such call.
macro_rules! given {
    ($call:expr) => {
        match $call {
            Ok(value) => value,
            Err(fault) => return Err(fault),
        }
    };
    ($call:expr, $fault:expr) => {
        match $call {
            Ok(value) => value,
            Err(_) => return Err($fault),
        }
    };
}

mod auditing;
mod callers;
mod each;
mod events;
mod judging;
mod reads;
mod running;
mod showing;
mod watched;

use auditing::{audit_difference, left_difference};
use case_files::auditing::is_session;
use case_files::came::Came;
use case_files::comparing::judged;
use case_files::order::Order;
use case_files::part::{Head, Part, case_name, lines, only, parts};
use case_files::ran::Ran;
use case_files::rule::rules;
use case_files::setup::{Failing, Setup, failing_end, other_words, times};
use case_lines::fault::{Fault, Wrong};
use case_lines::line::Line;
use each::{each_difference, other_difference};
use events::events_difference;
use judging::difference;
use reads::reads_difference;
use running::host_case;
use std::alloc::{AllocError, Global};
use std::process::ExitCode;
use std::rt::Files;
use std::sync::Wait;
use std::thread::Threads;
use std::{env, fs, io};
use watched::watched_case;

/// All cases are right.
const RIGHT: u8 = 0;

/// One case differs, or could not be told.
const DIFFERENT: u8 = 1;

/// A file is none of cases, or could not be read.
const NO_CASES: u8 = 2;

// What differs of what came of a run, and of the order that it kept to.
fn came_difference(
    alloc: Global,
    parts: &[Part<'_>],
    ran: &Ran,
    order: &Order,
    failing: Failing,
    is_played: bool,
) -> Result<Option<String>, Wrong> {
    let came = given!(Came::of(alloc, ran, is_played), Wrong::from(AllocError));
    match difference(alloc, &came, parts, failing) {
        Ok(None) => {
            let told = given!(
                order.difference(alloc, came.clients()),
                Wrong::from(AllocError)
            );
            Ok(told)
        }
        told => told,
    }
}

// What differs of what is tried with what a run left.
fn tried_difference<T: Threads + Wait + Sync>(
    rt: &T,
    alloc: Global,
    parts: &[Part<'_>],
    ran: &Ran,
    is_session: bool,
) -> Result<Option<String>, Wrong> {
    if is_session {
        if let Some(text) = given!(left_difference(rt, alloc, parts, ran)) {
            return Ok(Some(text));
        }
    }
    if let Some(text) = given!(audit_difference(rt, alloc, parts, ran)) {
        return Ok(Some(text));
    }
    if let Some(words) = given!(other_words(alloc, parts)) {
        return other_difference(rt, alloc, parts, words, ran);
    }
    match given!(failing_end(parts)) {
        Some(each) => each_difference(rt, alloc, parts, each, ran),
        None => Ok(None),
    }
}

// What a case leaves in its order. Where that says what watched handlers are asked, they are watched, and nothing is left where they are asked
// something else.
fn ran_in<T: Threads + Wait + Sync>(
    rt: &T,
    alloc: Global,
    setup: Setup,
    order: &Order,
) -> Result<Option<Ran>, AllocError> {
    match order.asked() {
        Some(asked) => watched_case(rt, alloc, setup, order, asked),
        None => match host_case(rt, alloc, setup, order) {
            Ok(ran) => Ok(Some(ran)),
            Err(error) => Err(error),
        },
    }
}

// What differs where a case is run once, or `None`.
fn run_difference<T: Threads + Wait + Sync>(
    rt: &T,
    alloc: Global,
    parts: &[Part<'_>],
) -> Result<Option<String>, Wrong> {
    let setup = given!(Setup::of(alloc, parts));
    let failing = setup.failing;
    let is_played = setup.form() == "play";
    let is_session = is_session(setup.form());
    let order = Order::of(given!(rules(alloc, parts)));
    let Some(ran) = given!(ran_in(rt, alloc, setup, &order), Wrong::from(AllocError)) else {
        let text = String::from_str(
            alloc,
            "handlers were asked something else, or one was not dropped once",
        );
        return Ok(Some(given!(text, Wrong::from(AllocError))));
    };
    match came_difference(alloc, parts, &ran, &order, failing, is_played) {
        Ok(None) => tried_difference(rt, alloc, parts, &ran, is_session),
        told => told,
    }
}

// What differs where a case is run so often as it says, or `None`.
fn case_difference<T: Threads + Wait + Sync>(
    rt: &T,
    alloc: Global,
    parts: &[Part<'_>],
) -> Result<Option<String>, Wrong> {
    for _ in 0..given!(times(parts)) {
        match run_difference(rt, alloc, parts) {
            Ok(None) => {}
            told => return told,
        }
    }
    Ok(None)
}

// That each part says something of a run.
fn only_of_words(parts: &[Part<'_>]) -> Result<(), Wrong> {
    only(
        parts,
        &[
            Head::File,
            Head::Bytes,
            Head::Link,
            Head::Order,
            Head::Times,
            Head::Fails,
            Head::Each,
            Head::Like,
            Head::Audit,
            Head::Takes,
            Head::Status,
            Head::Report,
            Head::Stream,
            Head::Second,
            Head::Dump,
            Head::Cells,
            Head::Or,
            Head::Differs,
        ],
    )
}

// What differs of a case of words, whose other parts these are.
fn words_difference<T: Threads + Wait + Sync>(
    rt: &T,
    alloc: Global,
    parts: &[Part<'_>],
    others: &[Part<'_>],
) -> Result<Option<String>, Wrong> {
    given!(only_of_words(others));
    case_difference(rt, alloc, parts)
}

// The name of the case of some lines, and what is told of it where it is run.
fn case_run<'a, T: Threads + Wait + Sync>(
    rt: &T,
    alloc: Global,
    lines: &'a [Line<'a>],
) -> Result<(&'a str, Option<String>), Wrong> {
    let Some((first, lines)) = lines.split_first() else {
        return Ok(("", None));
    };
    let Some(name) = case_name(first.text) else {
        return Err(first.wrong(Fault::Case));
    };
    let parts = given!(parts(alloc, lines));
    let Some((part, others)) = parts.as_slice().split_first() else {
        return Err(first.wrong(Fault::Case));
    };
    let told = given!(match part.head {
        Head::Words => words_difference(rt, alloc, parts.as_slice(), others),
        Head::Events => events_difference(alloc, part.rest, others),
        Head::Reads => reads_difference(alloc, others),
        _ => Err(first.wrong(Fault::Case)),
    });
    let told = given!(judged(alloc, others, told), Wrong::from(AllocError));
    Ok((name, told))
}

// Prints the line of a case, and says whether nothing differs, and it was told.
fn told_line<R: Print>(
    rt: &R,
    alloc: Global,
    file: &str,
    name: &str,
    difference: Option<String>,
) -> Result<bool, AllocError> {
    let text = match &difference {
        Some(text) => text.as_str(),
        None => "ok",
    };
    let line = given!(format!(in alloc; "{file}/{name}: {text}"));
    Ok(rt.println(line.as_str()).is_ok() && difference.is_none())
}

// Runs the cases of a text, and says whether all are right, and were told.
fn run_text<R: Threads + Wait + Sync + Print>(
    rt: &R,
    alloc: Global,
    file: &str,
    text: &str,
) -> Result<bool, Wrong> {
    let lines = given!(lines(alloc, text), Wrong::from(AllocError));
    let mut right = true;
    for chunk in lines
        .as_slice()
        .chunk_by(|_, next| case_name(next.text).is_none())
    {
        let (name, difference) = given!(case_run(rt, alloc, chunk));
        let told = given!(
            told_line(rt, alloc, file, name, difference),
            Wrong::from(AllocError)
        );
        right = told && right;
    }
    Ok(right)
}

// The status of what was run.
fn status_of<R: Print + AllocGlobal>(rt: &R, name: &str, right: Result<bool, Wrong>) -> u8 {
    match right {
        Ok(true) => RIGHT,
        Ok(false) => DIFFERENT,
        Err(wrong) => {
            let (line, fault) = (wrong.line, wrong.fault);
            let _ = println!(rt; "{name}:{line}: {fault}");
            NO_CASES
        }
    }
}

// Runs the cases of a file, and answers the status.
fn run_file<R: Threads + Wait + Sync + Print + Files + AllocGlobal>(rt: &R, name: &str) -> u8 {
    let Ok(text) = fs::read_to_string(rt, name) else {
        let _ = println!(rt; "{name}: no file of cases");
        return NO_CASES;
    };
    let file = name.strip_suffix(".cases").unwrap_or(name);
    status_of(rt, name, run_text(rt, rt.alloc(), file, text.as_str()))
}

fn main(rt: HostRuntime) -> io::Result<ExitCode> {
    let mut status = RIGHT;
    for name in env::args(&rt)?.skip(1) {
        status = status.max(run_file(&rt, name.as_str()));
    }
    Ok(ExitCode::from(status))
}
