//! A client exits: what it owns goes.
ghost use Rattle.std.specs.Prelude.{◌≡◌, true, not, filter, Option, IfSome};
ghost use Rattle.con_handles.specs.Handles.{is_owned};
ghost use Rattle.con_handles.specs.Tables.{IsTable};
ghost use Rattle.con_procs.specs.Procs.{is_attached};
ghost use Rattle.con_screens.specs.Words.Buffers.{AreBuffers};
ghost use Rattle.con_screens.specs.Words.Stamps.{all_remembered};
ghost use Rattle.con_units.specs.declared.view.View.{View};
ghost use Rattle.con_machine.specs.Reads.{left, took_ctrl};
ghost use Rattle.con_machine.specs.Words.Reads.{released_all};
ghost use Rattle.con_machine.specs.Sound.{AreCounted, IsPainted};

use crate::calls::counting;
use crate::painting::seen::{Seen, without};
use crate::parts::Parts;
use con_events::Reply;
use con_handles::Handles;
use con_screens::Screens;

// Closes all handles of a process, and answers what is known still of the view that was painted last.
fn release_all(
    handles: &mut Handles,
    screens: &mut Screens,
    seen: Option<Seen>,
    p: u8,
) -> Option<Seen>
    requires buffers { AreBuffers screens.old }
    requires counted { AreCounted screens.old handles.old.open_ones }
    requires table { IsTable handles.old.open_ones }
    ensures handles { handles.new.open_ones ≡ filter (λ h. not (is_owned p h)) handles.old.open_ones }
    ensures buffers { screens.new ≡ released_all screens.old (filter (is_owned p) handles.old.open_ones) }
    ensures kept { AreBuffers screens.new }
    ensures counted { AreCounted screens.new handles.new.open_ones }
    ensures table { IsTable handles.new.open_ones }
    ensures seen { (painted : Option View) → IsPainted (all_remembered screens.old) seen painted → IsPainted (all_remembered screens.new) result painted }
{
    let mut seen = seen;
    while let Some(object) = handles.take_any(p) {
        seen = without(seen, object);
        counting::release(screens, object);
    }
    seen
}

impl Parts {
    /// The client exits: its read goes, and each of its handles is closed.
    #[tactic(auto, unfolding(crate::specs::Reads::left))]
    pub fn leave(&mut self, p: u8, status: u32)
        requires { is_attached self.old.state.procs p ≡ true }
        ensures state { self.new.state ≡ left self.old.state p status }
    {
        self.seen = release_all(&mut self.handles, &mut self.screens, self.seen, p);
        self.procs.exit(p, status);
        self.readers.cancel(p);
        self.notes.drop_of(p);
        self.rests.forget_all(p);
    }

    /// The oldest control event that waits for the client is taken.
    #[tactic(auto, unfolding(crate::specs::Reads::took_ctrl))]
    pub fn take_ctrl(&mut self, p: u8) -> Reply
        ensures state { self.new.state ≡ (took_ctrl self.old.state p).after }
        ensures reply { result ≡ (took_ctrl self.old.state p).reply }
    {
        match self.procs.take_pending(p) {
            Some(event) => Reply::Ctrl(event),
            None => Reply::Ctrl(0),
        }
    }
}
