//! The clients of a session, before they run.
ghost use Rattle.std.specs.Prelude.{◌≡◌, ◌<◌, ◌≤◌, ◌+◌, true, [], IfOk, length, map, vec_len, All};
ghost use Rattle.con_book.specs.Lock.{gave};
ghost use Rattle.con_book.specs.Passes.{book_id, pass_id, view_of, made, seen};
ghost use Rattle.con_threads.specs.Clients.{seen_of};
ghost use Rattle.con_run.specs.Crews.{AreNew, Begins, IsOpening, down_from};

use con_actors::Seat;
use con_book::{Book, Pass};
use con_events::{Actor, Script};
use con_threads::{ClientThread, Ledger, Scribe};
use con_units::OutOfMemory;
use std::alloc::Global;

// The client of a seat, with its script.
fn client<'a>(
    book: &Book<Ledger>,
    opening: &mut Pass<Ledger>,
    seat: Seat,
    script: &'a Script,
    number: u8,
) -> ClientThread<'a>
    requires book { pass_id opening.old ≡ book_id book.now }
    requires opening { ((view_of opening.old).opens ≡ true) × (seen opening.old ≡ []) × ((view_of opening.old).start.replies ≡ []) }
    requires real { 0 < number }
    requires below { All (λ a. a < number) (made opening.old) }
    ensures book { pass_id opening.new ≡ pass_id opening.old }
    ensures opening { view_of opening.new ≡ gave number (view_of opening.old) }
    ensures seat { result.seat ≡ seat }
    ensures client { Begins (pass_id opening.old) (view_of opening.old).start script.now number (seen_of memory result) }
{
    ClientThread {
        scribe: Scribe::new(book, opening, number as u32, Actor::Client(number)),
        seat,
        steps: script.steps.0.as_slice(),
        number,
        broken: false,
    }
}

/// The clients of these seats, each with its script. Their numbers begin with 1.
pub fn crew<'a>(
    alloc: Global,
    book: &Book<Ledger>,
    opening: &mut Pass<Ledger>,
    seats: Vec<Seat>,
    scripts: &'a [Script],
) -> Result<Vec<ClientThread<'a>>, OutOfMemory>
    requires opening { IsOpening (book_id book.now) (view_of opening.old).start [] opening.old }
    requires none_before { (view_of opening.old).start.replies ≡ [] }
    requires few { length scripts.now ≤ 64 }
    requires scripts { length seats.items ≡ length scripts.now }
    ensures len { IfOk result (λ crew. vec_len crew ≡ length scripts.now) }
    ensures seats { IfOk result (λ crew. map (λ c. c.seat) crew.items ≡ seats.items) }
    ensures crew { IfOk result (λ crew. AreNew (seen_of memory) (book_id book.now) (view_of opening.old).start scripts.now crew.items) }
    ensures opening { IfOk result (λ _. IsOpening (book_id book.now) (view_of opening.old).start (down_from (length scripts.now)) opening.new) }
{
    let Ok(mut crew) = Vec::with_capacity(alloc, seats.len()) else {
        return Err(OutOfMemory);
    };
    let mut at = 0;
    for seat in seats {
        let script = &scripts[at];
        crew.push_reserved(client(book, opening, seat, script, at as u8 + 1));
        at += 1;
    }
    Ok(crew)
}
