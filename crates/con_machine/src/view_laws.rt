//! What holds of every console's view, and what an event does to its size.
ghost use Rattle.std.specs.Prelude.{◌≡◌};
ghost use Rattle.con_units.specs.Words.Limits.{IsWindow};
ghost use Rattle.con_units.specs.Words.View.{IsWhole};
ghost use Rattle.con_events.specs.declared.actor.Actor.{Actor};
ghost use Rattle.con_events.specs.declared.event.Event.{Event};
ghost use Rattle.con_machine.specs.State.{State};
ghost use Rattle.con_machine.specs.Step.{step};
ghost use Rattle.con_machine.specs.Painting.{view_now};
ghost use Rattle.con_machine.specs.Sizes.{SizedBy};

use crate::parts::Parts;

/// A Resize makes the window as large as it says, and no other event gives it another size.
pub fn an_event_sizes_the_window()
    ensures { (s : State) (a : Actor) (e : Event) → SizedBy s e (step s a e).after }
{}

impl Parts {
    /// The view has all of its cells, and its cursor inside where it shows. It has the size of the window, of 1 to 512
    /// columns and 1 to 256 rows.
    pub fn view_is_whole(&self)
        ensures whole { IsWhole (view_now self.now.state) }
        ensures wide { (view_now self.now.state).size.w ≡ self.now.state.buffers.w }
        ensures high { (view_now self.now.state).size.h ≡ self.now.state.buffers.h }
        ensures window { IsWindow self.now.state.buffers.w self.now.state.buffers.h }
    {
        // A part that is read tells what holds of every console, from which all clauses follow.
        let _ = &self.screens;
    }
}
