//! A case is run, with its outside in memory.
ghost use Rattle.std.specs.Prelude.{◌≤◌, All, length};

use crate::callers::status;
use case_files::ends::{OrderedSink, OrderedSource};
use case_files::order::Order;
use case_files::ran::Ran;
use case_files::setup::{Failing, Setup};
use con_handlers::{CtrlHandler, Note, Once, Swallow, Tally};
use con_outside::{MemoryFiles, MemorySink, MemorySource};
use con_units::Bytes;
use std::alloc::{AllocError, Global};
use std::sync::Wait;
use std::thread::Threads;

/// How many clients a session may have, each with a rack of the four handlers.
const CLIENTS: usize = 64;

/// The handlers of each client.
pub type Racks = Vec<Vec<Box<dyn CtrlHandler + Send>>>;

// The calls that fail, as each end has them.
#[derive(Drop)]
struct FailLists {
    files: Vec<u64>,
    link: Vec<u64>,
    term: Vec<u64>,
    second: Vec<u64>,
    report: Vec<u64>,
}

fn listed(alloc: Global, failing: Failing) -> Result<FailLists, AllocError> {
    let files = given!(Vec::from_elem(alloc, failing.files, 1), AllocError);
    let link = given!(Vec::from_elem(alloc, failing.link, 1), AllocError);
    let term = given!(Vec::from_elem(alloc, failing.term, 1), AllocError);
    let second = given!(Vec::from_elem(alloc, failing.second, 1), AllocError);
    let report = given!(Vec::from_elem(alloc, failing.report, 1), AllocError);
    Ok(FailLists {
        files,
        link,
        term,
        second,
        report,
    })
}

// A sink that takes at most so many bytes at once, and fails at these calls.
fn sink(alloc: Global, most: usize, fail: Vec<u64>) -> MemorySink {
    MemorySink {
        written: Bytes(Vec::new(alloc)),
        most,
        fail,
        calls: 0,
        faults: 0,
    }
}

/// Runs what a case says, once, with a rack of the four handlers for each client, in an order.
pub fn host_case<T: Threads + Wait + Sync>(
    rt: &T,
    alloc: Global,
    setup: Setup,
    order: &Order,
) -> Result<Ran, AllocError> {
    let mut racks = Vec::new(alloc);
    for _ in 0..CLIENTS {
        let mut rack: Vec<Box<dyn CtrlHandler + Send>> = Vec::new(alloc);
        rack.push(Box::new(alloc, Swallow::new())?)?;
        rack.push(Box::new(alloc, Note::new())?)?;
        rack.push(Box::new(alloc, Once::new())?)?;
        rack.push(Box::new(alloc, Tally::new())?)?;
        racks.push(rack)?;
    }
    host_racks(rt, alloc, setup, racks, order)
}

/// Runs what a case says, once, with these handlers, of which no rack has more than 255, in an order.
pub fn host_racks<T: Threads + Wait + Sync>(
    rt: &T,
    alloc: Global,
    setup: Setup,
    racks: Racks,
    order: &Order,
) -> Result<Ran, AllocError>
    requires { All (λ rack. length rack.items ≤ 255) racks.items }
{
    let fails = given!(listed(alloc, setup.failing));
    let mut files = MemoryFiles {
        names: setup.names,
        texts: setup.texts,
        fail: fails.files,
        calls: 0,
        faults: 0,
    };
    let mut link = OrderedSource {
        inner: MemorySource {
            bytes: Bytes(setup.link),
            at: 0,
            fail: fails.link,
            calls: 0,
            faults: 0,
        },
        order,
    };
    let mut term = OrderedSink {
        inner: sink(alloc, setup.most, fails.term),
        order,
    };
    let mut second = sink(alloc, setup.most, fails.second);
    let mut report = sink(alloc, setup.most, fails.report);
    let status = status(
        rt,
        alloc,
        setup.words.as_slice(),
        &mut files,
        &mut link,
        &mut term,
        &mut second,
        &mut report,
        racks,
        order,
    );
    Ok(Ran {
        status,
        written: term.inner.written,
        second: second.written,
        report: report.written,
    })
}
