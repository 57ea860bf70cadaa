//! A whole session by threads.
ghost use Rattle.std.specs.Prelude.{◌≡◌, ◌⊎◌, ℕ, ◌≤◌, ◌∷◌, true, false, [], List, Option, None, IfOk, length, map, All};
ghost use Rattle.con_outside.specs.Outside.{Rose};
ghost use Rattle.con_events.specs.Session.{Clients};
ghost use Rattle.con_machine.specs.Follows.{session_start};
ghost use Rattle.con_machine.specs.Words.Painting.{is_fresh};
ghost use Rattle.con_handlers.specs.Boxes.{boxed};
ghost use Rattle.con_actors.specs.Held.{AreFresh};
ghost use Rattle.con_actors.specs.Outcome.{Leaves};
ghost use Rattle.con_actors.specs.Solo.{begins};
ghost use Rattle.con_actors.specs.Worker.{told_kind};
ghost use Rattle.con_pipe.specs.PipeEnds.{is_finished};
ghost use Rattle.con_book.specs.Passes.{book_id, view_of};
ghost use Rattle.con_threads.specs.Clients.{seen_of};
ghost use Rattle.con_run.specs.Crews.{CrewGoes, IsCrew, IsOpening, down_from};
ghost use Rattle.con_run.specs.Session.{AreMade, EdgesGo};

use crate::close::finished;
use crate::crew::crew;
use crate::edges::{Edges, Setting, make_edges, set};
use crate::run::run_all;
use con_actors::{Outcome, Seat, Side, Stage, begun, nothing_left};
use con_book::{Book, Pass};
use con_events::{End, Script, Session};
use con_handlers::CtrlHandler;
use con_outside::{Gate, Sink, Source};
use con_threads::{ClientThread, Ledger};
use con_units::OutOfMemory;
use std::alloc::Global;
use std::sync::Wait;
use std::thread::Threads;

// All that a session's threads begin with.
#[derive(Drop)]
struct Cast<'a> {
    book: Book<Ledger>,
    opening: Pass<Ledger>,
    edges: Edges,
    clients: Vec<ClientThread<'a>>,
}

// The threads of a session, which have done nothing.
fn made<'a>(
    alloc: Global,
    stage: Stage,
    seats: Vec<Seat>,
    scripts: &'a [Script],
) -> Result<Cast<'a>, OutOfMemory>
    requires few { length scripts.now ≤ 64 }
    requires scripts { length seats.items ≡ length scripts.now }
    requires fresh { is_fresh stage.desk.console.state ≡ true }
    requires side { (stage.side ≡ record { ended = false; end = End.Done }) × (stage.reader ≡ 0) }
    ensures start { IfOk result (λ t. (view_of t.opening).start ≡ record { state = stage.desk.console.state; replies = [] }) }
    ensures opening { IfOk result (λ t. IsOpening (book_id t.book) (view_of t.opening).start (1001 ∷ 1000 ∷ down_from (length scripts.now)) t.opening) }
    ensures edges { IfOk result (λ t. AreMade (book_id t.book) (view_of t.opening).start t.edges.side t.edges.painter t.edges.put t.edges.writer) }
    ensures open { IfOk result (λ t. is_finished t.edges.put ≡ false) }
    ensures fine { IfOk result (λ t. (t.edges.side.side.end ≡ End.Done) × (t.edges.writer.failed ≡ false)) }
    ensures len { IfOk result (λ t. length t.clients.items ≡ length scripts.now) }
    ensures crew { IfOk result (λ t. IsCrew (seen_of memory) (book_id t.book) (view_of t.opening).start t.clients.items) }
    ensures go { IfOk result (λ t. (session : Clients) (racks : List (List ℕ)) (before old : Option (List ℕ))
        → stage.desk.console.state ≡ session_start session racks
        → EdgesGo (begins session racks None) before before old old t.edges.side t.edges.painter t.edges.put t.edges.writer) }
    ensures crew_goes { IfOk result (λ t. (session : Clients) (racks : List (List ℕ))
        → stage.desk.console.state ≡ session_start session racks → scripts.now ≡ session.scripts
        → AreFresh (boxed memory) racks 0 seats.items → CrewGoes (seen_of memory) (begins session racks None) t.clients.items) }
{
    let Setting {
        book,
        mut opening,
        reader,
        side,
        painter,
    } = set(alloc, stage)?;
    let clients = crew(alloc, &book, &mut opening, seats, scripts)?;
    let edges = make_edges(
        alloc,
        &book,
        &mut opening,
        reader,
        side,
        painter,
        scripts.len(),
    )?;
    Ok(Cast {
        book,
        opening,
        edges,
        clients,
    })
}

// The threads run until all have returned, and the session ends.
fn play<T: Threads + Wait + Sync, I: Source + Send, O: Sink + Send, G: Gate>(
    rt: &T,
    alloc: Global,
    made: Cast<'_>,
    link: &mut I,
    term: &mut O,
    gate: &G,
    clients: usize,
) -> Outcome
    requires opening { IsOpening (book_id made.book) (view_of made.opening).start (1001 ∷ 1000 ∷ down_from clients) made.opening }
    requires none_before { (view_of made.opening).start.replies ≡ [] }
    requires edges { AreMade (book_id made.book) (view_of made.opening).start made.edges.side made.edges.painter made.edges.put made.edges.writer }
    requires open { is_finished made.edges.put ≡ false }
    requires few { clients ≤ 64 }
    requires len { length made.clients.items ≡ clients }
    requires crew { IsCrew (seen_of memory) (book_id made.book) (view_of made.opening).start made.clients.items }
    ensures outcome { (session : Clients) (racks : List (List ℕ))
        → (view_of made.entry.opening).start.state ≡ session_start session racks → length session.scripts ≡ clients
        → EdgesGo (begins session racks None) (I.left link.old) (I.left link.old) (O.written term.old) (O.written term.old)
        made.entry.edges.side made.entry.edges.painter made.entry.edges.put made.entry.edges.writer
        → CrewGoes (seen_of memory) (begins session racks None) made.entry.clients.items
        → Leaves session racks result.entries result.replies result.ends result.end
        (I.left link.old) (I.left link.new) (O.written term.old) (O.written term.new) }
    ensures link { result.end ≡ End.Link → (made.entry.edges.side.side.end ≡ End.Link) ⊎ Rose (I.faults link.old) (I.faults link.new) }
    ensures term { (session : Clients) (racks : List (List ℕ)) → (view_of made.entry.opening).start.state ≡ session_start session racks
        → EdgesGo (begins session racks None) (I.left link.old) (I.left link.old) (O.written term.old) (O.written term.old)
        made.entry.edges.side made.entry.edges.painter made.entry.edges.put made.entry.edges.writer
        → result.end ≡ End.Term → (made.entry.edges.writer.failed ≡ true) ⊎ Rose (O.faults term.old) (O.faults term.new) }
    ensures link_never_falls { I.faults link.old ≤ I.faults link.new }
    ensures term_never_falls { O.faults term.old ≤ O.faults term.new }
{
    let Cast {
        book,
        opening,
        mut edges,
        clients: mut crew,
    } = made;
    run_all(
        rt,
        alloc,
        &book,
        gate,
        &mut edges.side,
        link,
        &mut edges.painter,
        &mut edges.put,
        &mut edges.writer,
        term,
        &mut crew,
    );
    finished(rt, alloc, book, opening, edges, crew, term, clients)
}

/// Runs a session by threads: each client, the terminal's side, the painter and the writer has one of its own. Where the system makes one
/// less, the session ends with [`End::Memory`], before any of them begins, which no clause says.
/// The handlers of `racks` are those that the clients may add, by place; a client behind the last rack has none.
pub fn run_session<T: Threads + Wait + Sync, I: Source + Send, O: Sink + Send, G: Gate>(
    rt: &T,
    alloc: Global,
    session: &Session,
    link: &mut I,
    term: &mut O,
    racks: Vec<Vec<Box<dyn CtrlHandler + Send>>>,
    gate: &G,
) -> Outcome
    requires few { All (λ rack. length rack.items ≤ 255) racks.items }
    ensures outcome { Leaves session.now (map (λ rack. map (λ b. told_kind (memory b)) rack.items) racks.items)
        result.entries result.replies result.ends result.end (I.left link.old) (I.left link.new) (O.written term.old) (O.written term.new) }
    ensures link { result.end ≡ End.Link → Rose (I.faults link.old) (I.faults link.new) }
    ensures term { result.end ≡ End.Term → Rose (O.faults term.old) (O.faults term.new) }
    ensures link_never_falls { I.faults link.old ≤ I.faults link.new }
    ensures term_never_falls { O.faults term.old ≤ O.faults term.new }
{
    let Ok((stage, seats)) = begun(alloc, session, racks) else {
        return nothing_left(alloc);
    };
    let scripts = session.scripts();
    let Ok(made) = made(alloc, stage, seats, scripts) else {
        return nothing_left(alloc);
    };
    play(rt, alloc, made, link, term, gate, scripts.len())
}
