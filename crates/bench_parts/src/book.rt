//! How many turns a second a book makes, beside a mutex round the same machine.
mod measure;
mod mutex;
mod worker;

use std::alloc::Global;
use std::io;
use std::rt::Clock;
use std::sync::Wait;
use std::thread::Threads;

/// Prints a line for 1, 2, 4, 16 and 64 passes, which make so many turns each time.
pub fn print<R: Threads + Wait + Clock + Print + Sync>(
    rt: &R,
    alloc: Global,
    turns: Option<&str>,
) -> io::Result<()> {
    match turns.unwrap_or("400000").parse::<u32>() {
        Ok(turns) => measure::print(rt, alloc, turns),
        Err(_) => println!(rt; "usage: bench_parts book [TURNS]"),
    }
}
