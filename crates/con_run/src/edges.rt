//! The book of a session, and all threads but the clients', before they run.
ghost use Rattle.std.specs.Prelude.{◌≡◌, ℕ, ◌≤◌, ◌∷◌, true, false, List, [], IfOk, Option, None};
ghost use Rattle.con_events.specs.declared.end.End.{End};
ghost use Rattle.con_machine.specs.Words.Painting.{is_fresh};
ghost use Rattle.con_events.specs.Session.{Clients};
ghost use Rattle.con_machine.specs.Follows.{session_start};
ghost use Rattle.con_book.specs.Passes.{book_id, view_of};
ghost use Rattle.con_actors.specs.Solo.{begins};
ghost use Rattle.con_run.specs.Crews.{IsOpening, down_from};
ghost use Rattle.con_pipe.specs.PipeEnds.{is_finished};
ghost use Rattle.con_run.specs.Session.{AreMade, EdgesGo};

use con_actors::{Canvas, Desk, Side, Stage};
use con_book::{Book, Opened, Pass};
use con_events::{Actor, End};
use con_link::LinkReader;
use con_paint::Painter;
use con_pipe::{PipeEnds, PipeIn, pipe};
use con_threads::{Ledger, PainterThread, Scribe, SideThread, WriterThread};
use con_units::OutOfMemory;
use std::alloc::Global;

/// A console in a book, and what the terminal's side and the painter begin with.
#[derive(Drop)]
pub struct Setting {
    pub book: Book<Ledger>,
    pub opening: Pass<Ledger>,
    pub reader: LinkReader,
    pub side: Side,
    pub painter: Painter,
}

/// All threads but the clients', with the two ends of the pipe.
#[derive(Drop)]
pub struct Edges {
    pub side: SideThread,
    pub painter: PainterThread,
    pub put: PipeIn,
    pub writer: WriterThread,
}

// How many frames the pipe holds.
const FRAMES: usize = 8;

/// The console of a stage, in a book.
pub fn set(alloc: Global, stage: Stage) -> Result<Setting, OutOfMemory>
    ensures opening { IfOk result (λ s. IsOpening (book_id s.book) (record { state = stage.desk.console.state; replies = [] }) [] s.opening) }
    ensures side { IfOk result (λ s. (s.reader ≡ stage.reader) × (s.side ≡ stage.side)) }
{
    let Stage {
        desk,
        reader,
        side,
        canvas,
    } = stage;
    let Desk {
        console,
        entries: _,
        replies: _,
    } = desk;
    let Canvas {
        painter,
        out: _,
        ends: _,
        end: _,
        failed: _,
    } = canvas;
    let Opened {
        book,
        pass: opening,
    } = Book::new(alloc, Ledger::new(alloc, console))?;
    Ok(Setting {
        book,
        opening,
        reader,
        side,
        painter,
    })
}

/// The terminal's side, the painter and the writer, beside clients that have a pass.
pub fn make_edges(
    alloc: Global,
    book: &Book<Ledger>,
    opening: &mut Pass<Ledger>,
    reader: LinkReader,
    side: Side,
    painter: Painter,
    clients: usize,
) -> Result<Edges, OutOfMemory>
    requires opening { IsOpening (book_id book.now) (view_of opening.old).start (down_from clients) opening.old }
    requires none_before { (view_of opening.old).start.replies ≡ [] }
    requires few { clients ≤ 64 }
    requires side { (side ≡ record { ended = false; end = End.Done }) × (reader ≡ 0) }
    requires fresh { is_fresh (view_of opening.old).start.state ≡ true }
    ensures opening { IfOk result (λ _. IsOpening (book_id book.now) (view_of opening.old).start (1001 ∷ 1000 ∷ down_from clients) opening.new) }
    ensures made { IfOk result (λ e. AreMade (book_id book.now) (view_of opening.old).start e.side e.painter e.put e.writer) }
    ensures open { IfOk result (λ e. is_finished e.put ≡ false) }
    ensures fine { IfOk result (λ e. (e.side.side.end ≡ End.Done) × (e.writer.failed ≡ false)) }
    ensures go { IfOk result (λ e. (session : Clients) (racks : List (List ℕ)) (before old : Option (List ℕ))
        → (view_of opening.old).start.state ≡ session_start session racks
        → EdgesGo (begins session racks None) before before old old e.side e.painter e.put e.writer) }
{
    let PipeEnds { put, take } = pipe(alloc, FRAMES)?;
    let side = SideThread {
        scribe: Scribe::new(book, opening, 1000, Actor::Terminal),
        reader,
        side,
        hung: false,
        broken: false,
    };
    let painter = PainterThread {
        scribe: Scribe::new(book, opening, 1001, Actor::Painter),
        painter,
        ends: Vec::new(alloc),
        end: 0,
        broken: false,
    };
    let writer = WriterThread {
        take,
        failed: false,
        broken: false,
    };
    Ok(Edges {
        side,
        painter,
        put,
        writer,
    })
}
