//! What the program is measured beside, in `bench/`. Its first word names the part:
//!
//! - `threads [FILE]`: a session's calls, entered by threads at a mutex
//! - `book [TURNS]`: turns of a book, beside a mutex
//!
//! With no word at all it is `threads` of a session that is generated, which prints the same each time.
#![tactic(auto)]

mod book;
mod threads;

use std::alloc::Global;
use std::env::Env;
use std::rt::{Clock, Files};
use std::sync::Wait;
use std::thread::Threads;
use std::{env, io};

// The words after the program's name.
fn words<R: Env + AllocGlobal>(rt: &R) -> io::Result<Vec<String>> {
    let mut words = Vec::new(rt.alloc());
    for word in env::args(rt)?.skip(1) {
        words.push(word)?;
    }
    Ok(words)
}

fn word_at(words: &[String], at: usize) -> Option<&str> {
    match words.get(at) {
        Some(word) => Some(word.as_str()),
        None => None,
    }
}

fn print<R: Threads + Wait + Print + Clock + Files + Sync>(
    rt: &R,
    alloc: Global,
    words: &[String],
) -> io::Result<()> {
    let word = word_at(words, 1);
    match word_at(words, 0) {
        None | Some("threads") => threads::print(rt, alloc, word),
        Some("book") => book::print(rt, alloc, word),
        Some(_) => println!(rt; "usage: bench_parts [threads [FILE]|book [TURNS]]"),
    }
}

fn main(rt: HostRuntime) -> io::Result<()> {
    let words = words(&rt)?;
    print(&rt, rt.alloc(), words.as_slice())
}
