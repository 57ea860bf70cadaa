//! The console, and what stands before each call.
ghost use Rattle.std.specs.Prelude.{◌≡◌, ℕ, IfOk};
ghost use Rattle.con_handles.specs.declared.handle.Kind.TheVariants as kind;
ghost use Rattle.con_handles.specs.Tables.{IsTable};
ghost use Rattle.con_screens.specs.Words.Buffers.{IsLive};
ghost use Rattle.con_machine.specs.Outcome.{guard};
ghost use Rattle.con_machine.specs.Words.Outcome.{object_or};
ghost use Rattle.con_machine.specs.Sound.{HasLive};

use crate::painting::seen::Seen;
use crate::reads::notes::Notes;
use crate::reads::rests::Rests;
use crate::title::Title;
use con_alias::Aliases;
use con_handles::{Handles, Kind, Object};
use con_history::Histories;
use con_mouse::Buttons;
use con_procs::Procs;
use con_readers::Readers;
use con_records::Records;
use con_screens::Screens;
use con_units::{BufferId, Code, View};
use con_vtin::KeyReader;
use std::marker::Model;

/// The console: all that its clients, its terminal and its painter share.
pub struct Parts {
    pub(crate) handles: Handles,
    pub(crate) procs: Procs,
    pub(crate) readers: Readers,
    pub(crate) notes: Notes,
    pub(crate) rests: Rests,
    pub(crate) records: Records,
    pub(crate) screens: Screens,
    pub(crate) histories: Histories,
    pub(crate) aliases: Aliases,
    pub(crate) keys: KeyReader,
    pub(crate) buttons: Buttons,
    pub(crate) mode: u32,
    pub(crate) cursor_keys: bool,
    pub(crate) title: Title,
    pub(crate) drained: bool,
    pub(crate) closed: bool,
    pub(crate) painted: Option<View>,
    pub(crate) resized: bool,
    pub(crate) asked: bool,
    pub(crate) seen: Option<Seen>,
}

impl Model for Parts {
    ghost use Rattle.con_machine.specs.Held.{Held, held_of, IsSound};

    ghost Value = { Held };

    ghost view = { held_of };

    ghost invariant = { IsSound };
}

// By hand, so that what drops a console has this call in its proof, and not all that lies in one.
impl Drop for Parts {
    fn drop(self) {
        let Parts {
            handles: _,
            procs: _,
            readers: _,
            notes: _,
            rests: _,
            records: _,
            screens: _,
            histories: _,
            aliases: _,
            keys: _,
            buttons: _,
            mode: _,
            cursor_keys: _,
            title: _,
            drained: _,
            closed: _,
            painted: _,
            resized: _,
            asked: _,
            seen: _,
        } = self;
    }
}

impl Parts {
    /// What a handle stands for, and whether the call may be.
    pub(crate) fn guard(&self, p: u8, h: u32, kind: Kind, right: u8) -> Result<Object, Code>
        ensures is { result ≡ guard self.now.state p h kind right }
        ensures live { IfOk result (λ o. HasLive self.now.state.buffers o) }
    {
        if self.closed {
            return Err(Code::Closed);
        }
        self.handles.look(p, h, kind, right)
    }

    /// The buffer of a call, and whether the call may be.
    pub(crate) fn output(&self, p: u8, h: u32, right: u8) -> Result<BufferId, Code>
        ensures is { guard self.now.state p h kind.Output right ≡ object_or result }
        ensures live { IfOk result (λ id. IsLive self.now.state.buffers id.0) }
    {
        match self.guard(p, h, Kind::Output, right) {
            Err(code) => Err(code),
            Ok(Object::Input) => unreachable!(),
            Ok(Object::Output(id)) => Ok(id),
        }
    }
}
