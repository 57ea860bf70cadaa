//! After every event nothing is left to do, so what changes nothing leaves the console as it is.
ghost use Rattle.std.specs.Prelude.{◌≡◌, ℕ, true, List, [], ◌∷◌, ◌++◌};
ghost use Rattle.con_events.specs.Session.{Clients};
ghost use Rattle.con_events.specs.declared.actor.Actor.{Actor};
ghost use Rattle.con_events.specs.declared.actor.Actor.TheVariants as actors;
ghost use Rattle.con_events.specs.declared.call.Call.{Call};
ghost use Rattle.con_events.specs.declared.entry.Entry.{Entry};
ghost use Rattle.con_events.specs.declared.event.Event.{Event};
ghost use Rattle.con_events.specs.declared.event.Event.TheVariants as events;
ghost use Rattle.con_machine.specs.State.{State};
ghost use Rattle.con_machine.specs.Follows.{session_start};
ghost use Rattle.con_machine.specs.History.{run};
ghost use Rattle.con_laws.specs.Settled.{IsSettled, only_tells};
ghost use Rattle.con_laws.specs.Once.{peek};
ghost use Rattle.con_machine.specs.Step.{step, effect, client_of};

/// A session begins with nothing left to do, and every event, and so every history, leaves it so.
pub fn every_event_leaves_nothing_to_do()
    ensures begins { (session : Clients) (racks : List (List ℕ)) → IsSettled (session_start session racks) }
    ensures step { (s : State) (a : Actor) (e : Event) → IsSettled s → IsSettled (step s a e).after }
    ensures run { (s : State) (h : List Entry) → IsSettled s → IsSettled (run s h) }
{}

/// So an event without an effect leaves the console as it is, and with it a call that only tells something, whatever it answers.
pub fn what_only_tells_changes_nothing()
    ensures effect { (s : State) (a : Actor) (e : Event) → IsSettled s → (effect s (client_of a) e).after ≡ s → (step s a e).after ≡ s }
    ensures calls { (s : State) (p : ℕ) (c : Call) → IsSettled s → only_tells c ≡ true → (step s (actors.Client p) (events.Call c)).after ≡ s }
{}

/// A peek of the input leaves the console as it is: in a history one peek more, of any client and handle, changes nothing.
pub fn a_peek_changes_nothing()
    ensures { (s : State) (h : List Entry) (p hd n : ℕ) → IsSettled s → run s (h ++ peek p hd n ∷ []) ≡ run s h }
{}
