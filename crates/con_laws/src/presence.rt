//! What an event does to what a client knows of itself.
ghost use Rattle.std.specs.Prelude.{◌≡◌, ℕ, List, []};
ghost use Rattle.con_events.specs.declared.actor.Actor.{Actor};
ghost use Rattle.con_events.specs.declared.entry.Entry.{Entry};
ghost use Rattle.con_events.specs.declared.event.Event.{Event};
ghost use Rattle.con_machine.specs.History.{run};
ghost use Rattle.con_laws.specs.Presence.{OthersStay, OwnDoes, IsSingle};
ghost use Rattle.con_machine.specs.State.{State};
ghost use Rattle.con_machine.specs.Step.{step};

/// An event of another actor attaches and detaches no client, opens and takes away no read of it, and leaves a control event
/// that waits for it.
pub fn an_event_leaves_other_clients()
    ensures { OthersStay }
{}

/// A client's own event detaches it where it is an Exit; a Begin that is not refused opens a read, a Collect and an Exit take it
/// away, and no other event does either.
pub fn an_event_moves_its_client()
    ensures { OwnDoes }
{}

/// No process has two reads at once.
pub fn a_process_has_one_read()
    ensures step { (s : State) (a : Actor) (e : Event) (p : ℕ) → IsSingle s p → IsSingle (step s a e).after p }
    ensures run { (s : State) (h : List Entry) (p : ℕ) → IsSingle s p → IsSingle (run s h) p }
    ensures none { (s : State) (p : ℕ) → s.reads ≡ [] → IsSingle s p }
{}
