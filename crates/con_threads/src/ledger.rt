//! The console in the lock, with the replies that it gave.
ghost use Rattle.std.specs.Prelude.{◌≡◌, ◌≤◌, vec_len, vec_capacity};

use crate::listing::listed_in;
use con_actors::{Brief, Picture, brief_for};
use con_book::{Logged, Machine};
use con_console::{Console, Shown};
use con_events::{Entry, Event, Reply};
use con_machine::Room;
use con_units::OutOfMemory;
use std::alloc::Global;
use std::collections::LinkedList;

/// A console, and what it answered so far. A Paint counts as answered by Done.
///
/// It has room for as many entries as it gave replies, so that a closed book's log becomes a list of entries without memory.
#[derive(Drop)]
pub struct Ledger {
    pub(crate) console: Console,
    pub(crate) replies: Vec<Reply>,
    /// Nothing but room for the entries of the log.
    pub(crate) entries: Vec<Entry>,
    ghost counted: { (vec_len entries ≡ 0) × (vec_len replies ≤ vec_capacity entries) },
}

/// What a ledger is to a contract. No value of it is made.
pub struct LedgerView {
    pub state: Shown,
    pub replies: LinkedList<Reply>,
}

/// What the actor of an event is told.
#[derive(Drop)]
pub enum Told {
    /// Of an event of a client or of the terminal's side: what a client looks at in its reply.
    Brief(Brief),
    /// Of a Paint: its picture.
    Picture(Picture),
}

impl Told {
    ghost use Rattle.std.specs.Prelude.{◌≡◌};
    ghost use Rattle.con_actors.specs.Desk.{listed};
    ghost use Rattle.con_threads.specs.Ledger.{told_of};

    // What is told of a reply, and the reply as it is listed.
    fn of(reply: Reply) -> (Told, Reply)
        ensures { (result.0 ≡ told_of reply) × (result.1 ≡ listed reply) }
    {
        match reply {
            Reply::View(view, marks, fresh) => (
                Told::Picture(Picture { view, marks, fresh }),
                Reply::Done,
            ),
            other => (Told::Brief(brief_for(&other)), other),
        }
    }
}

impl Ledger {
    ghost use Rattle.std.specs.Prelude.{◌≡◌, [], map};
    ghost use Rattle.con_machine.specs.History.{replies_of};
    ghost use Rattle.con_actors.specs.Desk.{listed};
    ghost use Rattle.con_threads.specs.Ledger.{logged_entries, page_of, IsLogOf};
    ghost use Rattle.con_threads.specs.declared.ledger.LedgerView.{LedgerView};

    /// The ledger of a console that gave no reply yet.
    pub fn new(alloc: Global, console: Console) -> Ledger
        ensures { page_of result ≡ record { state = console.state; replies = [] } }
    {
        Ledger {
            console,
            replies: Vec::new(alloc),
            entries: Vec::new(alloc),
        }
    }

    /// The entries of a closed book's log and their replies, in order. It takes no memory.
    pub fn left(self, log: Vec<Logged<Event>>) -> (Vec<Entry>, Vec<Reply>)
        requires { (start : LedgerView) × IsLogOf start log.items (page_of self) }
        ensures entries { (start : LedgerView) → IsLogOf start log.items (page_of self) → result.0.items ≡ logged_entries start.state log.items }
        ensures replies { (start : LedgerView) → IsLogOf start log.items (page_of self)
            → result.1.items ≡ map listed (replies_of start.state (logged_entries start.state log.items)) }
    {
        let Ledger {
            console: _,
            replies,
            entries,
        } = self;
        (listed_in(entries, log), replies)
    }
}

/// An event that is not ready does nothing. Client p is actor p, the side of the terminal 1,000, and the painter 1,001.
impl Machine for Ledger {
    ghost use Rattle.con_threads.specs.Ledger.{page_of, blank_page, next_page, page_ready, page_brief, page_tells, brief_told, HasRoom};

    type State = LedgerView;

    type Event = Event;

    type Reply = Told;

    type Answer = Brief;

    type Room = Room;

    ghost state = { page_of };

    ghost blank = { blank_page };

    ghost next = { next_page };

    ghost answer = { brief_told };

    ghost answer_to = { page_brief };

    ghost is_ready = { page_ready };

    ghost fits = { HasRoom };

    ghost tells = { page_tells };

    fn ready(&self, actor: u32, event: &Event) -> bool {
        <Console as Machine>::ready(&self.console, actor, event)
    }

    fn prepare(&mut self, actor: u32, event: &Event) -> Result<Room, OutOfMemory> {
        if self.replies.reserve(1).is_err() {
            return Err(OutOfMemory);
        }
        let entries = self.replies.len() + 1;
        if self.entries.reserve(entries).is_err() {
            return Err(OutOfMemory);
        }
        <Console as Machine>::prepare(&mut self.console, actor, event)
    }

    fn apply(&mut self, actor: u32, event: &Event, room: Room) -> Told {
        self.console.view_is_whole();
        let reply = <Console as Machine>::apply(&mut self.console, actor, event, room);
        let (told, listed) = Told::of(reply);
        self.replies.push_reserved(listed);
        told
    }
}
