//! A console with its history.
ghost use Rattle.std.specs.Prelude.{◌≡◌, ◌<◌, true, false, IfOk, OnErr, vec_capacity, vec_len};
ghost use Rattle.con_units.specs.Words.Limits.{IsWindow};
ghost use Rattle.con_units.specs.Words.View.{IsWhole};
ghost use Rattle.con_machine.specs.Fits.{Fits};
ghost use Rattle.con_machine.specs.Marks.{AreMarks};
ghost use Rattle.con_machine.specs.Step.{is_ready, step};
ghost use Rattle.con_actors.specs.Desk.{listed};
ghost use Rattle.con_actors.specs.Words.Desk.{brief_of, is_painter, Enters, Rests, Ran};
ghost use Rattle.con_actors.specs.Painting.{Pictures};

use crate::door::Door;
use con_console::Console;
use con_events::{Actor, Entry, Event, Reply};
use con_machine::Room;
use con_units::{Marks, OutOfMemory, View};

/// A console, and what was entered and answered so far. A Paint counts as answered by Done.
#[derive(Drop)]
pub struct Desk {
    pub console: Console,
    pub entries: Vec<Entry>,
    pub replies: Vec<Reply>,
}

/// What a client looks at in a reply.
#[derive(Clone, Copy, PartialEq, Eq)]
pub enum Brief {
    /// An answer.
    Fine,
    /// A refusal.
    Refused,
    /// A control event was taken.
    Ctrl(u32),
}

/// What a painter is to paint.
#[derive(Drop)]
pub struct Picture {
    pub view: View,
    /// The rows that may differ from the view at the Paint before.
    pub marks: Marks,
    /// Nothing was painted on a terminal of this size.
    pub fresh: bool,
}

/// What a client looks at in this reply.
pub fn brief_for(reply: &Reply) -> Brief
    ensures { result ≡ brief_of reply.now }
{
    match reply {
        Reply::Fail(_) => Brief::Refused,
        Reply::Ctrl(event) => Brief::Ctrl(*event),
        _ => Brief::Fine,
    }
}

/// A reply as a session lists it.
pub fn as_listed(reply: Reply) -> Reply
    ensures { result ≡ listed reply }
{
    match reply {
        Reply::View(_, _, _) => Reply::Done,
        other => other,
    }
}

impl Desk {
    // Takes the memory for one more event, its entry and its reply. Nothing is entered.
    fn room_for(&mut self, actor: Actor, event: &Event) -> Result<Room, OutOfMemory>
        ensures same { Rests self.old.console.state self.new.console.state self.old.entries.items self.new.entries.items
            self.old.replies.items self.new.replies.items }
        ensures room { IfOk result (λ room. Fits room self.new.console actor event.now) }
        ensures entries { IfOk result (λ _. vec_len self.new.entries < vec_capacity self.new.entries) }
        ensures replies { IfOk result (λ _. vec_len self.new.replies < vec_capacity self.new.replies) }
    {
        if self.entries.reserve(1).is_err() {
            return Err(OutOfMemory);
        }
        if self.replies.reserve(1).is_err() {
            return Err(OutOfMemory);
        }
        self.console.prepare(actor, event)
    }

    /// Enters an event of a client or of the terminal's side. Where there is no memory nothing was entered.
    pub fn enter(&mut self, actor: Actor, event: Event) -> Result<Brief, OutOfMemory>
        requires ready { is_ready self.old.console.state actor event ≡ true }
        requires other { is_painter actor ≡ false }
        ensures ran { Ran self.old.console.state self.new.console.state self.old.entries.items self.new.entries.items }
        ensures entered { IfOk result (λ brief. Enters self.old.console.state self.new.console.state self.old.entries.items self.new.entries.items
            self.old.replies.items self.new.replies.items actor event) }
        ensures brief { IfOk result (λ brief. brief ≡ brief_of (step self.old.console.state actor event).reply) }
        ensures same { OnErr result
            (Rests self.old.console.state self.new.console.state self.old.entries.items self.new.entries.items self.old.replies.items self.new.replies.items) }
    {
        let Ok(room) = self.room_for(actor, &event) else {
            drop(event);
            return Err(OutOfMemory);
        };
        let reply = self.console.apply(actor, &event, room);
        let brief = brief_for(&reply);
        self.entries.push_reserved(Entry { actor, event });
        self.replies.push_reserved(as_listed(reply));
        Ok(brief)
    }

    /// Enters a Paint. Where there is no memory nothing was entered.
    pub fn paint(&mut self) -> Result<Picture, OutOfMemory>
        requires { is_ready self.old.console.state Actor.Painter Event.Paint ≡ true }
        ensures entered { IfOk result (λ picture. Enters self.old.console.state self.new.console.state self.old.entries.items self.new.entries.items
            self.old.replies.items self.new.replies.items Actor.Painter Event.Paint) }
        ensures pictures { IfOk result (λ picture. Pictures picture.view picture.fresh self.old.console.state) }
        ensures whole { IfOk result (λ picture. IsWhole picture.view) }
        ensures window { IfOk result (λ picture. IsWindow picture.view.size.w picture.view.size.h) }
        ensures marks { IfOk result (λ picture. AreMarks self.old.console.state picture.marks) }
        ensures same { OnErr result
            (Rests self.old.console.state self.new.console.state self.old.entries.items self.new.entries.items self.old.replies.items self.new.replies.items) }
    {
        let room = self.room_for(Actor::Painter, &Event::Paint)?;
        self.console.view_is_whole();
        match self.console.apply(Actor::Painter, &Event::Paint, room) {
            Reply::View(view, marks, fresh) => {
                self.entries.push_reserved(Entry {
                    actor: Actor::Painter,
                    event: Event::Paint,
                });
                self.replies.push_reserved(Reply::Done);
                Ok(Picture { view, marks, fresh })
            }
            _ => unreachable!(),
        }
    }
}

/// Nobody enters anything in between.
impl Door for Desk {
    ghost use Rattle.con_machine.specs.History.{run};
    ghost use Rattle.con_actors.specs.DeskDoor.{IsNothing, Since, joins, none, others};

    type Kept = Desk;

    ghost history = { λ desk. desk.entries.items };

    ghost stands = { λ desk kept. Since kept.console.state desk.console.state kept.entries.items desk.entries.items kept.replies.items desk.replies.items };

    ghost begins = { λ kept s. kept.console.state ≡ run s kept.entries.items };

    ghost serves = { λ desk actor. is_painter actor ≡ false };

    ghost may_between = { λ actor xs. IsNothing xs };

    fn enter(&mut self, actor: Actor, event: Event) -> Result<Brief, OutOfMemory> {
        self.enter(actor, event)
    }

    fn enter_if_ready(&mut self, actor: Actor, event: Event) -> Result<Option<Brief>, OutOfMemory> {
        if !self.console.ready(actor, &event) {
            drop(event);
            return Ok(None);
        }
        match self.enter(actor, event) {
            Ok(brief) => Ok(Some(brief)),
            Err(refused) => Err(refused),
        }
    }

    fn check(&mut self, actor: Actor, event: &Event) -> bool {
        self.console.ready(actor, event)
    }

    ghost none = { none };

    ghost joins = { joins };

    ghost others = { others };
}
