// A thread's part in a book.
ghost use Rattle.std.specs.Prelude.{◌≡◌};
ghost use Rattle.con_book.specs.Passes.{book_id, pass_id};

use con_book::counter::{Counter, Tick};
use con_book::{Book, Pass};
use std::sync::Wait;

/// A book, and a pass to it.
#[derive(Drop)]
pub struct Worker<'a> {
    pub book: &'a Book<Counter>,
    pub pass: Pass<Counter>,
    ghost fits: { pass_id pass ≡ book_id book.now },
}

impl Worker<'_> {
    /// Takes so many turns, or fewer where there is no memory.
    pub fn work<R: Wait>(&mut self, rt: &R, turns: u32) {
        for _ in 0..turns {
            if self.book.turn(rt, &mut self.pass, Tick::Any).is_err() {
                return;
            }
        }
    }
}
