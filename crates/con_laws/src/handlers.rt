//! What holds of the handlers of a process, whatever is entered.
ghost use Rattle.std.specs.Prelude.{◌≡◌, ◌||◌, ℕ, List};
ghost use Rattle.con_events.specs.declared.actor.Actor.{Actor};
ghost use Rattle.con_events.specs.declared.entry.Entry.{Entry};
ghost use Rattle.con_events.specs.declared.event.Event.{Event};
ghost use Rattle.con_machine.specs.State.{State};
ghost use Rattle.con_machine.specs.History.{run};
ghost use Rattle.con_machine.specs.Turns.{turns};
ghost use Rattle.con_machine.specs.Added.{was_added, has_added, AddsOnce};

/// A place of a rack is added at most once: an add that is done found it not added, and no other event changes what was
/// added. So what a process has added is what its entries added, beside what it had.
pub fn a_place_is_added_once()
    ensures event { (s : State) (a : Actor) (e : Event) (p i : ℕ) → AddsOnce s a e p i }
    ensures history { (s : State) (h : List Entry) (p i : ℕ) → was_added (run s h) p i ≡ (was_added s p i || has_added i (turns s p h)) }
{}
