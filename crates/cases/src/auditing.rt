//! What a session left is audited: its document, its link and what it wrote, as they are and with changes. So are files that a case has.
use crate::running::host_case;
use case_files::auditing::{answer_difference, answered, audit_of, changed_audit};
use case_files::order::Order;
use case_files::part::{Head, Part};
use case_files::ran::Ran;
use case_files::setup::Setup;
use case_lines::fault::{Fault, Wrong};
use con_ending::DONE;
use std::alloc::{AllocError, Global};
use std::sync::Wait;
use std::thread::Threads;

/// What an audit says of a run, and its status.
const YES: &str = "[\"audit\",\"yes\"]";

// What an audit leaves, for which nothing waits.
fn audited<T: Threads + Wait + Sync>(
    rt: &T,
    alloc: Global,
    setup: Setup,
) -> Result<Ran, AllocError> {
    host_case(rt, alloc, setup, &Order::of(Vec::new(alloc)))
}

// What differs where an audit is made with the changes of a part.
fn changed_difference<T: Threads + Wait + Sync>(
    rt: &T,
    alloc: Global,
    parts: &[Part<'_>],
    part: &Part<'_>,
    ran: &Ran,
) -> Result<Option<String>, Wrong> {
    let Some((wanted, changes)) = part.lines.split_last() else {
        return Err(part.rest.wrong(Fault::Line));
    };
    let is_done = ran.status == DONE;
    let setup = given!(changed_audit(alloc, parts, part, changes, ran, is_done));
    let audited = given!(audited(rt, alloc, setup), Wrong::from(AllocError));
    answer_difference(alloc, part.rest.text, &audited, *wanted)
}

/// What differs where what a session with status 0 left is audited as it is: it has to be a run.
pub fn left_difference<T: Threads + Wait + Sync>(
    rt: &T,
    alloc: Global,
    parts: &[Part<'_>],
    ran: &Ran,
) -> Result<Option<String>, Wrong> {
    let Some(setup) = given!(audit_of(alloc, parts, ran, ran.status == DONE)) else {
        return Ok(None);
    };
    let audited = given!(audited(rt, alloc, setup), Wrong::from(AllocError));
    let told = answered(alloc, "of what was left", &audited, DONE, YES);
    Ok(given!(told, Wrong::from(AllocError)))
}

/// What differs where an audit is made with the changes of each part that says so, or `None`.
pub fn audit_difference<T: Threads + Wait + Sync>(
    rt: &T,
    alloc: Global,
    parts: &[Part<'_>],
    ran: &Ran,
) -> Result<Option<String>, Wrong> {
    for part in parts {
        if part.head == Head::Audit {
            match changed_difference(rt, alloc, parts, part, ran) {
                Ok(None) => {}
                told => return told,
            }
        }
    }
    Ok(None)
}
