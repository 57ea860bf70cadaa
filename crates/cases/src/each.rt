//! What a case leaves where each call of an end of its outside fails in turn, and what it leaves with other words.
use crate::running::host_case;
use case_files::order::Order;
use case_files::part::Part;
use case_files::ran::{Ran, has_other, has_part, length};
use case_files::setup::{End, Failing, Setup};
use case_lines::fault::Wrong;
use con_ending::{LINK, MIRROR, REPORT, TERMINAL};
use std::alloc::{AllocError, Global};
use std::sync::Wait;
use std::thread::Threads;

/// After so many runs one has to meet no failure.
const RUNS: u64 = 10_000;

// The status where a call of an end fails, and the last line of the report, of which nothing is known where that failed.
fn ending(end: End) -> (u8, &'static str) {
    match end {
        End::Files | End::Report => (REPORT, ""),
        End::Link => (LINK, "[\"end\",4,\"link\"]\n"),
        End::Term => (TERMINAL, "[\"end\",5,\"term\"]\n"),
        End::Second => (MIRROR, "[\"end\",12,\"mirror\"]\n"),
    }
}

// Whether a run in which a call of an end failed told so, and left what it has to of a run in which none does.
fn is_broken_off(end: End, ran: &Ran, sure: &Ran, last: Option<usize>) -> bool {
    let (status, line) = ending(end);
    let is_told = ran.report.as_slice().ends_with(line.as_bytes());
    ran.status == status && is_told && has_part(end, ran, sure, last)
}

// What a case leaves where a call of an end fails.
fn failed<T: Threads + Wait + Sync>(
    rt: &T,
    alloc: Global,
    parts: &[Part<'_>],
    end: End,
    call: u64,
) -> Result<Ran, Wrong> {
    let mut setup = given!(Setup::of(alloc, parts));
    setup.failing = Failing::NONE.with(end, call);
    let order = Order::of(Vec::new(alloc));
    Ok(given!(host_case(rt, alloc, setup, &order), Wrong::from(AllocError)))
}

/// What differs where each call of an end fails in turn, up to a run that ends as the sure one did; so many at least have to fail.
pub fn each_difference<T: Threads + Wait + Sync>(
    rt: &T,
    alloc: Global,
    parts: &[Part<'_>],
    (end, least): (End, u64),
    sure: &Ran,
) -> Result<Option<String>, Wrong> {
    let mut last = None;
    for call in 0..RUNS {
        let ran = given!(failed(rt, alloc, parts, end, call));
        let status = ran.status;
        if status == sure.status {
            return Ok(given!(enough(alloc, call, least), Wrong::from(AllocError)));
        }
        if !is_broken_off(end, &ran, sure, last) {
            let text = format!(in alloc;
                "where call {call} fails: status {status}, or not what it has to leave"
            );
            return Ok(Some(given!(text, Wrong::from(AllocError))));
        }
        last = Some(length(end, &ran));
    }
    let text = String::from_str(alloc, "no run meets no failure");
    Ok(Some(given!(text, Wrong::from(AllocError))))
}

// What differs where so many calls fail in turn, and so many at least have to.
fn enough(alloc: Global, call: u64, least: u64) -> Result<Option<String>, AllocError> {
    if call >= least {
        return Ok(None);
    }
    Ok(Some(given!(format!(in alloc; "{call} calls fail in turn, wanted {least} at least"))))
}

/// What differs where a case is run with other words: its status, the terminal's stream and the report have to be the same.
pub fn other_difference<T: Threads + Wait + Sync>(
    rt: &T,
    alloc: Global,
    parts: &[Part<'_>],
    words: Vec<String>,
    sure: &Ran,
) -> Result<Option<String>, Wrong> {
    let mut setup = given!(Setup::of(alloc, parts));
    setup.words = words;
    let order = Order::of(Vec::new(alloc));
    let ran = given!(host_case(rt, alloc, setup, &order), Wrong::from(AllocError));
    match has_other(&ran, sure) {
        Some(what) => {
            let text = format!(in alloc; "the {what} is another one with the other words");
            Ok(Some(given!(text, Wrong::from(AllocError))))
        }
        None => Ok(None),
    }
}
