//! Two threads at a book, events that are not ready, and a bell.
ghost use Rattle.std.specs.Prelude.{◌≡◌, true, false, []};
ghost use Rattle.con_book.specs.Passes.{book_id, pass_id, IsSamePass};

use crate::outcome::entries_of;
use con_book::counter::{Counter, Tick};
use con_book::{Bell, Book, Closed, Opened, Pass};
use std::alloc::Global;
use std::sync::Wait;
use std::thread::{Threads, join};

// Takes so many turns.
fn ticks<R: Wait>(
    rt: &R,
    book: &Book<Counter>,
    mut pass: Pass<Counter>,
    turns: u32,
) -> Pass<Counter>
    requires { pass_id pass ≡ book_id book.now }
    ensures { IsSamePass pass result }
{
    for _ in 0..turns {
        let _ = book.turn(rt, &mut pass, Tick::Any);
    }
    pass
}

fn two<R: Threads + Wait + Sync>(rt: &R, alloc: Global, turns: u32) -> Option<Closed<Counter>> {
    let Opened {
        book,
        pass: mut first,
    } = Book::new(alloc, Counter { count: 0 }).ok()?;
    let a = book.pass(&mut first, 1);
    let b = book.pass(&mut first, 2);
    let (a, b) = join(
        rt,
        || -> Pass<Counter>
            requires { pass_id a ≡ book_id book }
            ensures { IsSamePass a result }
        { ticks(rt, &book, a, turns) },
        || -> Pass<Counter>
            requires { pass_id b ≡ book_id book }
            ensures { IsSamePass b result }
        { ticks(rt, &book, b, turns) },
    );
    book.join(&mut first, a);
    book.join(&mut first, b);
    Some(book.close(first))
}

// The machine's count, the entries of each of two threads, and all of the log.
fn counts_of(closed: &Closed<Counter>) -> [u64; 4] {
    let log = closed.log.as_slice();
    [
        closed.machine.count,
        entries_of(log, 1) as u64,
        entries_of(log, 2) as u64,
        log.len() as u64,
    ]
}

fn counts<R: Threads + Wait + Sync>(rt: &R, alloc: Global) -> [u64; 4] {
    match two(rt, alloc, 1000) {
        Some(closed) => counts_of(&closed),
        None => [0; 4],
    }
}

// What a turn of an event that is ready at an even count is answered: 9 where there is no memory, and 8 where it is not ready.
fn answer<R: Wait>(rt: &R, book: &Book<Counter>, pass: &mut Pass<Counter>) -> u64
    requires { pass_id pass.old ≡ book_id book.now }
    ensures { IsSamePass pass.old pass.new }
{
    match book.turn_if_ready(rt, pass, Tick::AtEven) {
        Ok(Some(reply)) => reply,
        Ok(None) => 8,
        Err(_) => 9,
    }
}

// What three turns of an event are answered that is ready before the first alone, and whether it is ready behind them.
fn answers<R: Wait>(rt: &R, alloc: Global) -> ([u64; 3], bool) {
    match Book::new(alloc, Counter { count: 0 }) {
        Ok(Opened { book, mut pass }) => {
            let first = answer(rt, &book, &mut pass);
            let second = answer(rt, &book, &mut pass);
            let third = answer(rt, &book, &mut pass);
            (
                [first, second, third],
                book.check(rt, &mut pass, &Tick::AtEven),
            )
        }
        Err(_) => ([9; 3], true),
    }
}

// How often a bell was rung that one thread waits for and another rings.
fn rings<R: Threads + Wait + Sync>(rt: &R) -> u64 {
    let bell = Bell::new();
    let seen = bell.mark();
    let ((), ()) = join(rt, || bell.wait(rt, seen), || bell.ring());
    bell.mark()
}

// Each turn is counted once; an event that is not ready is answered with nothing; and a ring after the mark ends the wait.
#[test]
fn turns_answers_and_a_bell(rt: HostRuntime) {
    let counts = counts(&rt, rt.alloc());
    let answers = answers(&rt, rt.alloc());
    let rings = rings(&rt);
    assert!(rt; counts == [2000, 1000, 1000, 2000] && answers == ([0, 8, 8], false) && rings == 1);
}
