//! What is left of a line for further reads of its handle.
ghost use Rattle.std.specs.Prelude.{◌≡◌, ◌⊎◌, ℕ, true, false, List, [], ◌∷◌, ◌++◌};
ghost use Rattle.con_events.specs.declared.actor.Actor.{Actor};
ghost use Rattle.con_events.specs.declared.call.Call.{Call};
ghost use Rattle.con_events.specs.declared.entry.Entry.{Entry};
ghost use Rattle.con_events.specs.declared.event.Event.TheVariants as events;
ghost use Rattle.con_machine.specs.State.{State, rest_in};
ghost use Rattle.con_machine.specs.History.{run};
ghost use Rattle.con_laws.specs.Rested.{IsLeft, begins_in, closes_it};
ghost use Rattle.con_machine.specs.Turns.{moved};

/// What is left for the next line read of a handle is nothing, or it is of the last line read of that handle that was collected, since when
/// the handle was not closed; and each of its units is answered once: what followed the answer of that read is, in order, what reads
/// answered since then, and what is left.
pub fn what_is_left_is_answered_once()
    ensures { (s : State) (h : List Entry) (p hd : ℕ) → s.rests ≡ [] → (rest_in (run s h).rests p hd ≡ []) ⊎ IsLeft s h p hd (rest_in (run s h).rests p hd) }
{}

/// For a handle that was closed nothing is left, and its number has nothing left when it is another handle's, until that handle is read:
/// also where a line read that began before was collected after.
pub fn a_closed_handle_leaves_nothing()
    ensures { (s : State) (h later : List Entry) (a : Actor) (x : Call) (p hd : ℕ) → closes_it (run s h) p hd a x ≡ true
        → (let one : Entry = record { actor = a; event = events.Call x } in begins_in (moved (run s h) one) p hd later ≡ false
        → rest_in (run s (h ++ one ∷ later)).rests p hd ≡ []) }
{}
