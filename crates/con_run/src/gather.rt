//! Taking the passes of all threads together, once they have returned.
ghost use Rattle.std.specs.Prelude.{◌≡◌, ◌∷◌, ◌++◌, true, false, [], map, All};
ghost use Rattle.con_book.specs.Lock.{joined};
ghost use Rattle.con_book.specs.Passes.{book_id, pass_id, view_of};
ghost use Rattle.con_book.specs.Turn.{OwnIsMine};
ghost use Rattle.con_run.specs.Taking.{HasTaken, Covers, kept_all};

use crate::closing::take_in;
use con_book::{Book, Pass};
use con_threads::{ClientThread, Ledger, Scribe};

// Whether all were gone, and this one is and was not broken.
fn still_gone(all: bool, gone: bool, broken: bool) -> bool
    ensures { result ≡ true → (all ≡ true) × (gone ≡ true) × (broken ≡ false) }
{
    all && gone && !broken
}

// Takes the pass of a client in.
fn take_client(book: &Book<Ledger>, into: &mut Pass<Ledger>, client: ClientThread<'_>)
    requires books { (pass_id into.old ≡ book_id book.now) × (pass_id client.scribe.pass ≡ book_id book.now) }
    requires single { (view_of client.scribe.pass).opens ≡ false }
    ensures taken { HasTaken (joined (view_of client.entry.scribe.pass) ∷ (view_of client.entry.scribe.pass).kept
        ++ (view_of into.old).kept) into.old into.new }
    ensures covers { Covers (view_of client.entry.scribe.pass) → Covers (view_of into.old) → Covers (view_of into.new) }
{
    let ClientThread {
        scribe,
        seat: _,
        steps: _,
        number: _,
        broken: _,
    } = client;
    let Scribe { pass, actor: _ } = scribe;
    take_in(book, into, pass);
}

/// Takes the passes of all clients into one, and says whether all are gone, with none of them broken.
pub fn gather(book: &Book<Ledger>, into: &mut Pass<Ledger>, crew: Vec<ClientThread<'_>>) -> bool
    requires into { (pass_id into.old ≡ book_id book.now) × OwnIsMine (view_of into.old) }
    requires books { All (λ c. pass_id c.scribe.pass ≡ book_id book.now) crew.items }
    requires single { All (λ c. ((view_of c.scribe.pass).opens ≡ false) × ((view_of c.scribe.pass).kept ≡ [])) crew.items }
    ensures into { HasTaken (kept_all (map (λ c. view_of c.scribe.pass) crew.entry.items) (view_of into.old).kept) into.old into.new }
    ensures covers { Covers (view_of into.old) → Covers (view_of into.new) }
    ensures gone { result ≡ true → All (λ c. (c.seat.worker.gone ≡ true) × (c.broken ≡ false)) crew.entry.items }
{
    let mut all = true;
    for client in crew {
        all = still_gone(all, client.seat.worker.gone, client.broken);
        take_client(book, into, client);
    }
    all
}
