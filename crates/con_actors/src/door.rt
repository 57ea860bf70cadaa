//! A way to a console.
ghost use Rattle.std.specs.Prelude.{◌≡◌, ℕ, List, [], ◌++◌, true, false, IfOk, IfErr, IfSome};
ghost use Rattle.std.specs.Option.{IfNone};
ghost use Rattle.con_events.specs.declared.actor.Actor.{Actor};
ghost use Rattle.con_events.specs.declared.actor.Actor.TheVariants as actors;
ghost use Rattle.con_events.specs.declared.entry.Entry.{Entry};
ghost use Rattle.con_machine.specs.History.{run};
ghost use Rattle.con_machine.specs.State.{State};
ghost use Rattle.con_machine.specs.Step.{is_ready};
ghost use Rattle.con_actors.specs.Door.{Saw, Entered, are_others};

use crate::desk::Brief;
use con_events::{Actor, Event};
use con_units::OutOfMemory;

/// A way to a console. Contracts see the entries that it has seen, and what others may have entered in between.
pub trait Door {
    /// What an event changes nothing of. No value of it is made.
    type Kept;

    // the entries that it has seen, oldest first
    ghost history: { Self → List Entry };

    // it is as this was, but for what was entered
    ghost stands: { Self → Self.Kept → Type 0 };

    // its console began in this state
    ghost begins: { Self.Kept → State → Type 0 };

    // this actor may enter events here
    ghost serves: { Self → Actor → Type 0 };

    // what may be entered between two events of this actor
    ghost may_between: { Actor → List Entry → Type 0 };

    /// Enters an event that is ready in every state. Where there is no memory nothing was entered.
    fn enter(&mut self, actor: Actor, event: Event) -> Result<Brief, OutOfMemory>
        requires serves { serves self.old actor }
        requires ready { (s : State) → is_ready s actor event ≡ true }
        ensures serves { serves self.new actor }
        ensures stands { (k : Self.Kept) → stands self.old k → stands self.new k }
        ensures entered { IfOk result (λ brief. (k : Self.Kept) (s : State) → stands self.old k → begins k s
            → Entered (may_between actor) s actor event brief (history self.old) (history self.new)) }
        ensures refused { IfErr result (λ _. (k : Self.Kept) → stands self.old k → Saw (may_between actor) (history self.old) (history self.new)) };

    /// Enters an event if it is ready.
    fn enter_if_ready(&mut self, actor: Actor, event: Event) -> Result<Option<Brief>, OutOfMemory>
        requires serves { serves self.old actor }
        ensures serves { serves self.new actor }
        ensures stands { (k : Self.Kept) → stands self.old k → stands self.new k }
        ensures entered { IfOk result (λ answer. IfSome answer (λ brief. (k : Self.Kept) (s : State) → stands self.old k → begins k s
            → Entered (may_between actor) s actor event brief (history self.old) (history self.new))) }
        ensures blocked { IfOk result (λ answer. IfNone answer ((k : Self.Kept) (s : State) → stands self.old k → begins k s
            → Saw (may_between actor) (history self.old) (history self.new) × (is_ready (run s (history self.new)) actor event ≡ false))) }
        ensures refused { IfErr result (λ _. (k : Self.Kept) → stands self.old k → Saw (may_between actor) (history self.old) (history self.new)) };

    /// Whether an event is ready. It enters nothing and takes no memory.
    fn check(&mut self, actor: Actor, event: &Event) -> bool
        requires serves { serves self.old actor }
        ensures serves { serves self.new actor }
        ensures stands { (k : Self.Kept) → stands self.old k → stands self.new k }
        ensures seen { (k : Self.Kept) → stands self.old k → Saw (may_between actor) (history self.old) (history self.new) }
        ensures ready { (k : Self.Kept) (s : State) → stands self.old k → begins k s → result ≡ is_ready (run s (history self.new)) actor event.now };

    // nothing at all may be in between, and what may be there may go on
    ghost none: { (a : Actor) → may_between a [] };

    ghost joins: { (a : Actor) (xs ys : List Entry) → may_between a xs → may_between a ys → may_between a (xs ++ ys) };

    // nothing of it is the actor's own, where that is a client
    ghost others: { (p : ℕ) (xs : List Entry) → may_between (actors.Client p) xs → are_others p xs ≡ true };
}
