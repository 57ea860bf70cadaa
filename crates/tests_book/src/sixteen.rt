// The same with 16 threads.
ghost use Rattle.std.specs.Prelude.{◌≡◌, true, [], IfSome, All, length, vec_len};
ghost use Rattle.con_book.specs.Passes.{book_id, pass_id, view_of, made};

use crate::member::Member;
use crate::outcome::{Outcome, entries_of};
use con_book::counter::{Counter, Tick};
use con_book::{Book, Closed, Opened, Pass};
use std::alloc::Global;
use std::sync::Wait;
use std::thread::{Threads, for_each_mut};

// Members for the actors 1 to 16.
fn crew(alloc: Global, book: &Book<Counter>, opening: &mut Pass<Counter>) -> Option<Vec<Member>>
    requires book { pass_id opening.old ≡ book_id book.now }
    requires new { ((view_of opening.old).opens ≡ true) × (made opening.old ≡ []) × ((view_of opening.old).kept ≡ []) }
    ensures crew { IfSome result (λ crew. (vec_len crew ≡ 16) × All (λ m. pass_id m.pass ≡ book_id book.now) crew.items) }
    ensures book { IfSome result (λ _. pass_id opening.new ≡ book_id book.now) }
    ensures opening { IfSome result (λ _. ((view_of opening.new).opens ≡ true) × (length (made opening.new) ≡ 16) × ((view_of opening.new).kept ≡ [])) }
{
    let mut crew = Vec::new(alloc);
    for actor in 1..17 {
        let member = Member {
            pass: book.pass(opening, actor),
            replies: 0,
            sum: 0,
            ready: false,
        };
        crew.push(member).ok()?;
    }
    Some(crew)
}

// Takes all members in and closes the book.
fn dismissed(book: Book<Counter>, opening: Pass<Counter>, crew: Vec<Member>) -> Outcome
    requires book { pass_id opening ≡ book_id book }
    requires crew { All (λ m. pass_id m.pass ≡ book_id book) crew.items }
    requires opening { ((view_of opening).opens ≡ true) × (length (made opening) ≡ vec_len crew) × ((view_of opening).kept ≡ []) }
{
    let mut opening = opening;
    let mut replies = 0u32;
    let mut sum = 0u64;
    let mut ready = 0u32;
    for member in crew {
        replies = replies.saturating_add(member.replies);
        sum = sum.saturating_add(member.sum);
        ready = ready.saturating_add(u32::from(member.ready));
        book.join(&mut opening, member.pass);
    }
    let Closed { machine, log } = book.close(opening);
    Outcome {
        count: machine.count,
        log,
        replies,
        sum,
        ready,
    }
}

fn sixteen<R: Threads + Wait + Sync>(
    rt: &R,
    alloc: Global,
    event: Tick,
    times: u32,
) -> Option<Outcome> {
    let Opened {
        book,
        pass: mut opening,
    } = Book::new(alloc, Counter { count: 0 }).ok()?;
    let mut crew = crew(alloc, &book, &mut opening)?;
    for_each_mut(
        rt,
        crew.as_mut_slice(),
        16,
        &|_, member: &mut Member|
            requires { pass_id member.old.pass ≡ book_id book }
            ensures { pass_id member.new.pass ≡ book_id book }
        { member.work(rt, &book, event, times) },
    );
    Some(dismissed(book, opening, crew))
}

// The machine's count, the entries of the log, the actors of whom it has so many, the replies, their sum, and how many found
// their event ready in the end.
fn told(outcome: &Outcome, times: usize) -> [u64; 6] {
    let mut whole = 0u64;
    for actor in 1..17 {
        if entries_of(outcome.log.as_slice(), actor) == times {
            whole = whole.saturating_add(1);
        }
    }
    [
        outcome.count,
        outcome.log.len() as u64,
        whole,
        u64::from(outcome.replies),
        outcome.sum,
        u64::from(outcome.ready),
    ]
}

fn sixteen_told<R: Threads + Wait + Sync>(
    rt: &R,
    alloc: Global,
    event: Tick,
    times: u32,
) -> Option<[u64; 6]> {
    match sixteen(rt, alloc, event, times) {
        Some(outcome) => Some(told(&outcome, times as usize)),
        None => None,
    }
}

// Each turn of 16 threads is counted once, and the replies are 0 to 15,999, each once; and an event that is ready once is answered to one
// of them, and to all others with nothing.
#[test]
fn each_turn_of_16_threads_is_one_entry(rt: HostRuntime) {
    let all = sixteen_told(&rt, rt.alloc(), Tick::Any, 1000);
    let one = sixteen_told(&rt, rt.alloc(), Tick::AtEven, 3);
    assert!(rt;
        all == Some([16_000, 16_000, 16, 16_000, 127_992_000, 16])
            && one == Some([1, 1, 0, 1, 0, 0])
    );
}
