// Turns a second.
ghost use Rattle.std.specs.Prelude.{◌≡◌, ◌<◌, ◌≤◌, ◌^◌, true};

use crate::book::mutex::{plain, work};
use crate::book::worker::Worker;
use con_book::counter::Counter;
use con_book::{Book, Opened};
use std::alloc::Global;
use std::rt::Clock;
use std::sync::Wait;
use std::thread::Threads;
use std::time::Instant;
use std::{io, thread};

// Turns a second of a book with so many passes, or 0 where there is no memory.
fn of_book<R: Threads + Wait + Clock + Sync>(
    rt: &R,
    alloc: Global,
    passes: u32,
    turns: u32,
) -> io::Result<u128>
    requires { (0 < passes) × (passes ≤ 64) }
{
    let Ok(Opened { book, mut pass }) = Book::new(alloc, Counter { count: 0 }) else {
        return Ok(0);
    };
    let mut workers = Vec::new(alloc);
    for actor in 1..passes + 1 {
        let pass = book.pass(&mut pass, actor);
        workers.push(Worker { book: &book, pass })?;
    }
    let each = turns / passes;
    let start = Instant::now(rt)?;
    thread::for_each_mut(
        rt,
        workers.as_mut_slice(),
        passes as usize,
        &|_, worker: &mut Worker<'_>| { worker.work(rt, each) },
    );
    Ok(a_second(turns, start.elapsed(rt)?.as_nanos()))
}

// The same of a mutex.
fn of_mutex<R: Threads + Wait + Clock + Sync>(
    rt: &R,
    alloc: Global,
    passes: u32,
    turns: u32,
) -> io::Result<u128>
    requires { (0 < passes) × (passes ≤ 64) }
{
    let shared = plain(alloc);
    let mut actors = Vec::new(alloc);
    for actor in 0..passes {
        actors.push(actor)?;
    }
    let each = turns / passes;
    let start = Instant::now(rt)?;
    thread::for_each_mut(
        rt,
        actors.as_mut_slice(),
        passes as usize,
        &|_, actor: &mut u32| { work(rt, &shared, *actor, each) },
    );
    Ok(a_second(turns, start.elapsed(rt)?.as_nanos()))
}

// So many in so many nanoseconds are how many a second?
fn a_second(turns: u32, nanos: u128) -> u128 {
    u128::from(turns) * 1_000_000_000 / nanos.max(1)
}

/// Prints a line for each number of passes.
pub fn print<R: Threads + Wait + Clock + Print + Sync>(
    rt: &R,
    alloc: Global,
    turns: u32,
) -> io::Result<()> {
    println!(rt; "passes  book turns/s  mutex turns/s  book/mutex")?;
    for passes in [1u32, 2, 4, 16, 64] {
        let book = of_book(rt, alloc, passes, turns)?;
        let mutex = of_mutex(rt, alloc, passes, turns)?;
        println!(rt;
            "{passes:6}  {book:12}  {mutex:13}  {:9}%",
            book.saturating_mul(100) / mutex.max(1)
        )?;
    }
    Ok(())
}
