//! Running the threads of a session. None begins before all are made.
ghost use Rattle.std.specs.Prelude.{◌≡◌, ◌⊎◌, ◌≤◌, false, map, All};
ghost use Rattle.con_outside.specs.Outside.{Rose};
ghost use Rattle.con_events.specs.declared.end.End.{End};
ghost use Rattle.con_pipe.specs.PipeEnds.{is_finished};
ghost use Rattle.con_book.specs.Passes.{book_id, pass_id};
ghost use Rattle.con_threads.specs.Clients.{IsClientThread, HasServed, seen_of};
ghost use Rattle.con_run.specs.Crews.{AllServed};
ghost use Rattle.con_threads.specs.Painters.{IsPainterThread, HasDrawn};
ghost use Rattle.con_threads.specs.Sides.{IsSideThread, HasSentOn};
ghost use Rattle.con_threads.specs.Writers.{HasWritten};

use crate::abreast::each_beside;
use crate::paired::beside;
use crate::work::client::client_work;
use crate::work::painter::painter_work;
use crate::work::side::side_work;
use crate::work::writer::writer_work;
use con_book::Book;
use con_outside::{Gate, Sink, Source};
use con_pipe::PipeIn;
use con_threads::{ClientThread, Ledger, PainterThread, SideThread, Signals, WriterThread};
use std::alloc::Global;
use std::sync::Wait;
use std::thread::Threads;

// The painter beside the writer.
fn run_painter<R: Threads + Wait + Sync, O: Sink + Send>(
    rt: &R,
    alloc: Global,
    book: &Book<Ledger>,
    signals: &Signals,
    painter: &mut PainterThread,
    put: &mut PipeIn,
    writer: &mut WriterThread,
    term: &mut O,
)
    requires painter { (pass_id painter.old.scribe.pass ≡ book_id book.now) × IsPainterThread painter.old }
    requires open { is_finished put.old ≡ false }
    ensures painter { HasDrawn painter.old painter.new put.old put.new }
    ensures writer { HasWritten writer.old writer.new (O.written term.old) (O.written term.new) (O.faults term.old) (O.faults term.new) }
{
    let mut one = ||
        requires { (pass_id painter.now.scribe.pass ≡ book_id book.now) × IsPainterThread painter.now × (is_finished put.now ≡ false) }
        ensures { HasDrawn painter.entry.now painter.exit.now put.entry.now put.exit.now }
    { painter_work(painter, rt, alloc, book, signals, put) };
    let mut two = ||
        ensures { HasWritten writer.entry.now writer.exit.now (O.written term.entry.now) (O.written term.exit.now)
            (O.faults term.entry.now) (O.faults term.exit.now) }
    { writer_work(writer, rt, term, signals) };
    beside(rt, signals, &mut one, &mut two);
}

// The terminal's side beside these two.
fn run_edges<R: Threads + Wait + Sync, I: Source + Send, O: Sink + Send>(
    rt: &R,
    alloc: Global,
    book: &Book<Ledger>,
    signals: &Signals,
    side: &mut SideThread,
    link: &mut I,
    painter: &mut PainterThread,
    put: &mut PipeIn,
    writer: &mut WriterThread,
    term: &mut O,
)
    requires side { (pass_id side.old.scribe.pass ≡ book_id book.now) × IsSideThread side.old }
    requires painter { (pass_id painter.old.scribe.pass ≡ book_id book.now) × IsPainterThread painter.old }
    requires open { is_finished put.old ≡ false }
    ensures side { HasSentOn side.old side.new (I.left link.old) (I.left link.new) }
    ensures failed { side.new.side.end ≡ End.Link → (side.old.side.end ≡ End.Link) ⊎ Rose (I.faults link.old) (I.faults link.new) }
    ensures never_falls { I.faults link.old ≤ I.faults link.new }
    ensures painter { HasDrawn painter.old painter.new put.old put.new }
    ensures writer { HasWritten writer.old writer.new (O.written term.old) (O.written term.new) (O.faults term.old) (O.faults term.new) }
{
    let mut one = ||
        requires { (pass_id side.now.scribe.pass ≡ book_id book.now) × IsSideThread side.now }
        ensures side { HasSentOn side.entry.now side.exit.now (I.left link.entry.now) (I.left link.exit.now) }
        ensures failed { side.exit.now.side.end ≡ End.Link
            → (side.entry.now.side.end ≡ End.Link) ⊎ Rose (I.faults link.entry.now) (I.faults link.exit.now) }
        ensures never_falls { I.faults link.entry.now ≤ I.faults link.exit.now }
    { side_work(side, rt, book, signals, link) };
    let mut two = ||
        requires { (pass_id painter.now.scribe.pass ≡ book_id book.now) × IsPainterThread painter.now × (is_finished put.now ≡ false) }
        ensures painter { HasDrawn painter.entry.now painter.exit.now put.entry.now put.exit.now }
        ensures writer { HasWritten writer.entry.now writer.exit.now (O.written term.entry.now) (O.written term.exit.now)
            (O.faults term.entry.now) (O.faults term.exit.now) }
    { run_painter(rt, alloc, book, signals, painter, put, writer, term) };
    beside(rt, signals, &mut one, &mut two);
}

// Each client in a thread of its own.
fn run_clients<R: Threads + Wait + Sync, G: Gate>(
    rt: &R,
    book: &Book<Ledger>,
    signals: &Signals,
    gate: &G,
    clients: &mut [ClientThread<'_>],
)
    requires { All (λ c. (pass_id c.scribe.pass ≡ book_id book.now) × IsClientThread memory c) clients.old }
    ensures { AllServed (seen_of memory) clients.old clients.new }
{
    each_beside(
        rt,
        signals,
        clients,
        &|_, client: &mut ClientThread<'_>|
            requires { (pass_id client.old.scribe.pass ≡ book_id book.now) × IsClientThread memory client.old }
            ensures { HasServed memory client.old client.new }
        { client_work(client, rt, book, signals, gate) },
    );
}

// All threads, each beside the others.
fn run_beside<R: Threads + Wait + Sync, I: Source + Send, O: Sink + Send, G: Gate>(
    rt: &R,
    alloc: Global,
    book: &Book<Ledger>,
    signals: &Signals,
    gate: &G,
    side: &mut SideThread,
    link: &mut I,
    painter: &mut PainterThread,
    put: &mut PipeIn,
    writer: &mut WriterThread,
    term: &mut O,
    clients: &mut [ClientThread<'_>],
)
    requires side { (pass_id side.old.scribe.pass ≡ book_id book.now) × IsSideThread side.old }
    requires painter { (pass_id painter.old.scribe.pass ≡ book_id book.now) × IsPainterThread painter.old }
    requires open { is_finished put.old ≡ false }
    requires clients { All (λ c. (pass_id c.scribe.pass ≡ book_id book.now) × IsClientThread memory c) clients.old }
    ensures side { HasSentOn side.old side.new (I.left link.old) (I.left link.new) }
    ensures failed { side.new.side.end ≡ End.Link → (side.old.side.end ≡ End.Link) ⊎ Rose (I.faults link.old) (I.faults link.new) }
    ensures never_falls { I.faults link.old ≤ I.faults link.new }
    ensures painter { HasDrawn painter.old painter.new put.old put.new }
    ensures writer { HasWritten writer.old writer.new (O.written term.old) (O.written term.new) (O.faults term.old) (O.faults term.new) }
    ensures clients { AllServed (seen_of memory) clients.old clients.new }
{
    let mut one = ||
        requires { All (λ c. (pass_id c.scribe.pass ≡ book_id book.now) × IsClientThread memory c) clients.now }
        ensures { AllServed (seen_of memory) clients.entry.now clients.exit.now }
    { run_clients(rt, book, signals, gate, clients) };
    let mut two = ||
        requires { (pass_id side.now.scribe.pass ≡ book_id book.now) × IsSideThread side.now
            × (pass_id painter.now.scribe.pass ≡ book_id book.now) × IsPainterThread painter.now × (is_finished put.now ≡ false) }
        ensures side { HasSentOn side.entry.now side.exit.now (I.left link.entry.now) (I.left link.exit.now) }
        ensures failed { side.exit.now.side.end ≡ End.Link
            → (side.entry.now.side.end ≡ End.Link) ⊎ Rose (I.faults link.entry.now) (I.faults link.exit.now) }
        ensures never_falls { I.faults link.entry.now ≤ I.faults link.exit.now }
        ensures painter { HasDrawn painter.entry.now painter.exit.now put.entry.now put.exit.now }
        ensures writer { HasWritten writer.entry.now writer.exit.now (O.written term.entry.now) (O.written term.exit.now)
            (O.faults term.entry.now) (O.faults term.exit.now) }
    {
        run_edges(
            rt, alloc, book, signals, side, link, painter, put, writer, term,
        )
    };
    beside(rt, signals, &mut one, &mut two);
}

/// The same of clients in a vector, until all have returned.
pub fn run_all<R: Threads + Wait + Sync, I: Source + Send, O: Sink + Send, G: Gate>(
    rt: &R,
    alloc: Global,
    book: &Book<Ledger>,
    gate: &G,
    side: &mut SideThread,
    link: &mut I,
    painter: &mut PainterThread,
    put: &mut PipeIn,
    writer: &mut WriterThread,
    term: &mut O,
    clients: &mut Vec<ClientThread<'_>>,
)
    requires side { (pass_id side.old.scribe.pass ≡ book_id book.now) × IsSideThread side.old }
    requires painter { (pass_id painter.old.scribe.pass ≡ book_id book.now) × IsPainterThread painter.old }
    requires open { is_finished put.old ≡ false }
    requires clients { All (λ c. (pass_id c.scribe.pass ≡ book_id book.now) × IsClientThread memory c) clients.old.items }
    ensures side { HasSentOn side.old side.new (I.left link.old) (I.left link.new) }
    ensures failed { side.new.side.end ≡ End.Link → (side.old.side.end ≡ End.Link) ⊎ Rose (I.faults link.old) (I.faults link.new) }
    ensures never_falls { I.faults link.old ≤ I.faults link.new }
    ensures painter { HasDrawn painter.old painter.new put.old put.new }
    ensures writer { HasWritten writer.old writer.new (O.written term.old) (O.written term.new) (O.faults term.old) (O.faults term.new) }
    ensures clients { AllServed (seen_of memory) clients.old.items clients.new.items }
{
    let signals = Signals::of(clients.len());
    let slice = clients.as_mut_slice();
    run_beside(
        rt, alloc, book, &signals, gate, side, link, painter, put, writer, term, slice,
    );
}
