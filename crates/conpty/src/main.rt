//! The program: standard input is the link, standard output the terminal, standard error the report, sessions and what is audited are files, and the second
//! terminal of `mirror` is the file `conpty.mirror`.
#![tactic(auto)]

mod words;

use con_ending::MEMORY;
use con_handlers::{CtrlHandler, Note, Once, Swallow, Tally};
use con_host::console_host;
use con_outside::{DiskFiles, DiskSink, Files, NoGate, Sink, Source, StdSink, StdSource};
use std::alloc::{AllocError, Global};
use std::process::ExitCode;
use std::sync::Wait;
use std::thread::Threads;
use words::words;

// How many clients a session may have, each with a rack of the four handlers.
const CLIENTS: usize = 64;

// Does what the words say. The boxes are made here, since no function hands out one that it made.
fn run<T: Threads + Wait + Sync, F: Files, I: Source + Send, O: Sink + Send, N: Sink, R: Sink>(
    rt: &T,
    alloc: Global,
    words: &[String],
    files: &mut F,
    link: &mut I,
    terminal: &mut O,
    second: &mut N,
    report: &mut R,
) -> Result<u8, AllocError> {
    let mut racks = Vec::new(alloc);
    for _ in 0..CLIENTS {
        let mut rack: Vec<Box<dyn CtrlHandler + Send>> = Vec::new(alloc);
        rack.push(Box::new(alloc, Swallow::new())?)?;
        rack.push(Box::new(alloc, Note::new())?)?;
        rack.push(Box::new(alloc, Once::new())?)?;
        rack.push(Box::new(alloc, Tally::new())?)?;
        racks.push(rack)?;
    }
    Ok(console_host(
        rt, alloc, words, files, link, terminal, second, report, racks, &NoGate,
    ))
}

fn main(rt: HostRuntime) -> ExitCode {
    let Ok(words) = words(&rt) else {
        return ExitCode::from(MEMORY);
    };
    let mut files = DiskFiles { rt, faults: 0 };
    let mut link = StdSource {
        reader: rt.stdin(),
        faults: 0,
    };
    let mut terminal = StdSink {
        writer: rt.stdout(),
        faults: 0,
    };
    let mut second = DiskSink {
        rt,
        file: None,
        faults: 0,
    };
    let mut report = StdSink {
        writer: rt.stderr(),
        faults: 0,
    };
    let status = run(
        &rt,
        rt.alloc(),
        words.as_slice(),
        &mut files,
        &mut link,
        &mut terminal,
        &mut second,
        &mut report,
    );
    ExitCode::from(status.unwrap_or(MEMORY))
}
