//! Taking in passes, and closing the book with all of them.
ghost use Rattle.std.specs.Prelude.{◌≡◌, ℕ, ◌∷◌, ◌++◌, false, List};
ghost use Rattle.con_events.specs.declared.event.Event.{Event};
ghost use Rattle.con_book.specs.Lock.{joined};
ghost use Rattle.con_book.specs.Passes.{book_id, pass_id, view_of};
ghost use Rattle.con_book.specs.declared.view.PassView.{PassView};
ghost use Rattle.con_run.specs.Taking.{Covers, HasTaken, IsGathered, IsHistory, MayClose};
ghost use Rattle.con_threads.specs.declared.ledger.LedgerView.{LedgerView};

use con_book::{Book, Closed, Pass};
use con_events::{Entry, Reply};
use con_threads::Ledger;

/// Takes a pass that is not the opening one into another.
pub fn take_in(book: &Book<Ledger>, into: &mut Pass<Ledger>, other: Pass<Ledger>)
    requires book { (pass_id into.old ≡ book_id book.now) × (pass_id other ≡ book_id book.now) }
    requires other { (view_of other).opens ≡ false }
    ensures taken { HasTaken (joined (view_of other) ∷ (view_of other).kept ++ (view_of into.old).kept) into.old into.new }
    ensures covers { Covers (view_of other) → Covers (view_of into.old) → Covers (view_of into.new) }
{
    book.join(into, other);
}

/// The whole history and its replies, once the pass that has taken in all others is taken into the opening one.
pub fn closed(
    book: Book<Ledger>,
    opening: Pass<Ledger>,
    last: Pass<Ledger>,
) -> (Vec<Entry>, Vec<Reply>)
    requires { MayClose (book_id book) opening last }
    ensures { (n : ℕ) (side : PassView LedgerView Event) (clients : List (PassView LedgerView Event))
        → IsGathered (book_id book) (view_of opening).start n opening last side clients
        → IsHistory (view_of opening).start n (view_of last) side clients result.0.items result.1.items }
{
    let mut opening = opening;
    take_in(&book, &mut opening, last);
    let Closed { machine, log } = book.close(opening);
    machine.left(log)
}
