// A thread's part in a test.
ghost use Rattle.std.specs.Prelude.{◌≡◌, false, []};
ghost use Rattle.con_book.specs.Passes.{book_id, pass_id, view_of, IsSamePass};

use con_book::counter::{Counter, Tick};
use con_book::{Book, Pass};
use std::sync::Wait;

/// A pass that took in no other one, and what its turns were answered.
#[derive(Drop)]
pub struct Member {
    pub pass: Pass<Counter>,
    // How many replies it got, and their sum.
    pub replies: u32,
    pub sum: u64,
    // Whether the event was ready in the end.
    pub ready: bool,
    ghost single: { ((view_of pass).opens ≡ false) × ((view_of pass).kept ≡ []) },
}

impl Member {
    /// Enters the event so many times, or asks to.
    pub fn work<R: Wait>(&mut self, rt: &R, book: &Book<Counter>, event: Tick, times: u32)
        requires { pass_id self.old.pass ≡ book_id book.now }
        ensures { IsSamePass self.old.pass self.new.pass }
    {
        for _ in 0..times {
            if let Some(reply) = enter(rt, book, &mut self.pass, event) {
                self.replies = self.replies.saturating_add(1);
                self.sum = self.sum.saturating_add(reply);
            }
        }
        self.ready = book.check(rt, &mut self.pass, &event);
    }
}

// The reply to one event, if it was entered.
fn enter<R: Wait>(
    rt: &R,
    book: &Book<Counter>,
    pass: &mut Pass<Counter>,
    event: Tick,
) -> Option<u64>
    requires { pass_id pass.old ≡ book_id book.now }
    ensures { IsSamePass pass.old pass.new }
{
    match event {
        Tick::Any => book.turn(rt, pass, event).ok(),
        Tick::AtEven => book.turn_if_ready(rt, pass, event).ok()?,
    }
}
