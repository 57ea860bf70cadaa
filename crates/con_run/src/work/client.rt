//! A client's thread, until it returns.
ghost use Rattle.std.specs.Prelude.{◌≡◌, ◌≤◌, [], length};
ghost use Rattle.con_book.specs.Passes.{book_id, pass_id};
ghost use Rattle.con_threads.specs.Clients.{HasServed, IsClientThread};

use crate::work::moved::Moved;
use con_actors::Hands;
use con_book::Book;
use con_outside::Gate;
use con_threads::{ClientThread, Ledger, Signals};
use con_units::OutOfMemory;
use std::sync::Wait;
use std::sync::atomic::Ordering::SeqCst;

// Drops the handlers.
fn drop_all(hands: &mut Hands)
    requires { 0 ≤ length hands.old.places.items }
    ensures chain { hands.new.chain.handlers.items ≡ [] }
    ensures rack { hands.new.rack.items ≡ [] }
{
    hands.chain.handlers.clear();
    hands.places.clear();
    hands.rack.clear();
}

// A turn, the first of these that there is to do: the exit that a control event calls for, a control event that is
// pending, the answer of a read that is open, the next step of the script, round which the gate is called.
fn act<R: Wait, G: Gate>(
    client: &mut ClientThread<'_>,
    rt: &R,
    book: &Book<Ledger>,
    gate: &G,
) -> Result<Moved, OutOfMemory>
    requires book { pass_id client.old.scribe.pass ≡ book_id book.now }
    requires is { IsClientThread memory client.old }
    ensures served { HasServed memory client.old client.new }
{
    if client.broken {
        return Err(OutOfMemory);
    }
    if client.seat.worker.gone {
        return Ok(Moved::Gone);
    }
    match client.turn(rt, book, gate) {
        Ok(true) => {
            if client.seat.worker.gone {
                drop_all(&mut client.seat.hands);
            }
            Ok(Moved::Entered)
        }
        Ok(false) => Ok(Moved::Waits),
        Err(refused) => {
            client.broken = true;
            Err(refused)
        }
    }
}

// Turns, until it is gone, or somebody halts all.
fn act_all<R: Wait, G: Gate>(
    client: &mut ClientThread<'_>,
    rt: &R,
    book: &Book<Ledger>,
    signals: &Signals,
    gate: &G,
)
    requires book { pass_id client.old.scribe.pass ≡ book_id book.now }
    requires is { IsClientThread memory client.old }
    ensures served { HasServed memory client.old client.new }
{
    for _ in rt.forever() {
        let mark = signals.bell.mark();
        if signals.halt.load(SeqCst) {
            return;
        }
        match act(client, rt, book, gate) {
            Ok(Moved::Entered) => signals.bell.ring(),
            Ok(Moved::Waits) => signals.bell.wait(rt, mark),
            Ok(Moved::Gone) => return,
            Err(OutOfMemory) => {
                signals.stop();
                return;
            }
        }
    }
    unreachable!()
}

/// Follows its script until it is gone, once all threads are made. Where it has no memory it halts all.
pub fn client_work<R: Wait, G: Gate>(
    client: &mut ClientThread<'_>,
    rt: &R,
    book: &Book<Ledger>,
    signals: &Signals,
    gate: &G,
)
    requires book { pass_id client.old.scribe.pass ≡ book_id book.now }
    requires is { IsClientThread memory client.old }
    ensures served { HasServed memory client.old client.new }
{
    signals.wait_for_all(rt);
    act_all(client, rt, book, signals, gate);
    signals.leave();
}
