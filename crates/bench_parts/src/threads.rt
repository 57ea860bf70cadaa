//! The calls of a session's clients, entered into one console under a mutex, by a thread for each client.
//!
//! A client makes its calls one after another, leaves out what waits, and exits. `bench/threads.py` measures `run` beside it. It has no
//! history, no painter, no terminal and no control events.
mod client;
mod play;

use std::alloc::Global;
use std::io;
use std::rt::Files;
use std::sync::Wait;
use std::thread::Threads;

/// Prints how many events were entered of the session of a file, or of the one that is generated from the number 1.
pub fn print<R: Threads + Wait + Print + Files + Sync>(
    rt: &R,
    alloc: Global,
    name: Option<&str>,
) -> io::Result<()> {
    match name {
        None => play::print_generated(rt, alloc),
        Some(name) => play::print_file(rt, alloc, name),
    }
}
