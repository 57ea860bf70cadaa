//! The end of a session whose threads have returned.
ghost use Rattle.std.specs.Prelude.{◌≡◌, ◌≢◌, ◌⊎◌, ◌≤◌, ℕ, ◌∷◌, true, false, [], List, Option, None, length, map, All};
ghost use Rattle.con_outside.specs.Outside.{Rose};
ghost use Rattle.con_events.specs.Session.{Clients};
ghost use Rattle.con_machine.specs.Follows.{session_start};
ghost use Rattle.con_actors.specs.Outcome.{Leaves};
ghost use Rattle.con_actors.specs.Solo.{begins};
ghost use Rattle.con_book.specs.Lock.{joined};
ghost use Rattle.con_book.specs.Passes.{book_id, pass_id, view_of};
ghost use Rattle.con_book.specs.Turn.{OwnIsMine};
ghost use Rattle.con_book.specs.declared.view.PassView.{PassView};
ghost use Rattle.con_events.specs.declared.event.Event.{Event};
ghost use Rattle.con_threads.specs.declared.ledger.LedgerView.{LedgerView};
ghost use Rattle.con_threads.specs.Clients.{seen_of};
ghost use Rattle.con_run.specs.Crews.{CrewGoes};
ghost use Rattle.con_run.specs.Session.{AreBack, EdgesGo};
ghost use Rattle.con_run.specs.Taking.{HasTaken, Covers, IsGathered, IsHistory, MayClose, kept_all};

use crate::closing::{closed, take_in};
use crate::edges::Edges;
use crate::gather::gather;
use crate::work::painter::paint_due;
use con_actors::{Outcome, end_by};
use con_book::{Book, Pass};
use con_events::{End, Entries, PieceEnds, Replies};
use con_outside::Sink;
use con_pipe::meet;
use con_threads::{ClientThread, Ledger, PainterThread, Scribe, SideThread};
use con_units::OutOfMemory;
use std::alloc::Global;
use std::sync::Wait;

// Takes the passes of all clients and of the terminal's side into one.
fn gather_all(
    book: &Book<Ledger>,
    into: &mut Pass<Ledger>,
    crew: Vec<ClientThread<'_>>,
    side: Scribe,
) -> bool
    requires into { (pass_id into.old ≡ book_id book.now) × OwnIsMine (view_of into.old) × ((view_of into.old).kept ≡ []) }
    requires books { All (λ c. pass_id c.scribe.pass ≡ book_id book.now) crew.items }
    requires single { All (λ c. ((view_of c.scribe.pass).opens ≡ false) × ((view_of c.scribe.pass).kept ≡ [])) crew.items }
    requires side { (pass_id side.pass ≡ book_id book.now) × ((view_of side.pass).opens ≡ false) × ((view_of side.pass).kept ≡ []) }
    ensures into { HasTaken (joined (view_of side.pass) ∷ kept_all (map (λ c. view_of c.scribe.pass) crew.entry.items) []) into.old into.new }
    ensures covers { Covers (view_of into.new) }
    ensures gone { result ≡ true → All (λ c. (c.seat.worker.gone ≡ true) × (c.broken ≡ false)) crew.entry.items }
{
    let gone = gather(book, into, crew);
    let Scribe { pass, actor: _ } = side;
    take_in(book, into, pass);
    gone
}

// Whether all threads did all that they do.
fn are_whole(gone: bool, ended: bool, side: bool, painter: bool, writer: bool) -> bool
    ensures { result ≡ true → (gone ≡ true) × (ended ≡ true) × (side ≡ false) × (painter ≡ false) × (writer ≡ false) }
{
    gone && ended && !side && !painter && !writer
}

// Whether a side hung up though the terminal had not failed. This cannot be.
fn is_astray(hung: bool, failed: bool) -> bool
    ensures { result ≡ false → hung ≡ true → failed ≡ true }
{
    hung && !failed
}

// What a closed book leaves, with the ends of the frames.
fn left(book: Book<Ledger>, opening: Pass<Ledger>, painter: PainterThread, end: End) -> Outcome
    requires { MayClose (book_id book) opening painter.scribe.pass }
    ensures history { (n : ℕ) (side : PassView LedgerView Event) (clients : List (PassView LedgerView Event))
        → IsGathered (book_id book) (view_of opening).start n opening painter.scribe.pass side clients
        → IsHistory (view_of opening).start n (view_of painter.scribe.pass) side clients result.entries result.replies }
    ensures ends { result.ends ≡ painter.ends.items }
    ensures end { result.end ≡ end }
{
    let PainterThread {
        scribe,
        painter: _,
        ends,
        end: _,
        broken: _,
    } = painter;
    let Scribe { pass, actor: _ } = scribe;
    let (entries, replies) = closed(book, opening, pass);
    Outcome {
        entries: Entries(entries),
        replies: Replies(replies),
        ends: PieceEnds(ends),
        end,
    }
}

/// Takes all passes together, paints until no Paint is due, and closes the book. The number of clients stands for the clauses alone.
pub fn finished<R: Wait, O: Sink>(
    rt: &R,
    alloc: Global,
    book: Book<Ledger>,
    opening: Pass<Ledger>,
    edges: Edges,
    crew: Vec<ClientThread<'_>>,
    term: &mut O,
    clients: usize,
) -> Outcome
    requires back { AreBack (seen_of memory) (book_id book) clients opening edges.side edges.painter edges.put edges.writer crew.items }
    ensures outcome { (session : Clients) (racks : List (List ℕ)) (before left old : Option (List ℕ))
        → (view_of opening).start.state ≡ session_start session racks → length session.scripts ≡ clients
        → EdgesGo (begins session racks None) before left old (O.written term.old) edges.side edges.painter edges.put edges.writer
        → CrewGoes (seen_of memory) (begins session racks None) crew.entry.items
        → Leaves session racks result.entries result.replies result.ends result.end before left old (O.written term.new) }
    ensures link { result.end ≡ End.Link → edges.side.side.end ≡ End.Link }
    ensures term { result.end ≡ End.Term → (edges.writer.failed ≡ true)
        ⊎ Rose (O.faults term.old) (O.faults term.new) ⊎ ((edges.side.side.end ≡ End.Term) × (edges.side.broken ≡ false)) }
    ensures never_falls { O.faults term.old ≤ O.faults term.new }
{
    let Edges {
        side,
        mut painter,
        mut put,
        mut writer,
    } = edges;
    meet(&mut put, &mut writer.take);
    let SideThread {
        scribe,
        reader: _,
        side,
        hung,
        broken,
    } = side;
    let gone = gather_all(&book, &mut painter.scribe.pass, crew, scribe);
    if !are_whole(gone, side.ended, broken, painter.broken, writer.broken) {
        return left(book, opening, painter, End::Memory);
    }
    if is_astray(hung, writer.failed) {
        return left(book, opening, painter, End::Memory);
    }
    match paint_due(&mut painter, rt, alloc, &book, term, writer.failed) {
        Ok(failed) => left(book, opening, painter, end_by(failed, side.end)),
        Err(OutOfMemory) => left(book, opening, painter, End::Memory),
    }
}
