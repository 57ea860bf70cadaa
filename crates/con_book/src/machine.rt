// What a book keeps.
ghost use Rattle.std.specs.Prelude.{◌≡◌, ℕ, Bool, true, IfOk};

use con_units::OutOfMemory;

/// A thing that takes one event after another, each by some actor.
///
/// Its meanings are ghost members: `state`, what a machine is to a contract; `next` and `answer_to`, the state after an
/// event of an actor and what is answered to it; `is_ready`, whether the event may stand there; `fits`, whether a room
/// is enough for it; and `tells`, what else a reply holds of the state before. What counts as the reply of `answer_to`
/// is the `answer` of the reply that the code gives.
pub trait Machine: Drop {
    /// What a machine is to a contract. No value of it is made.
    type State;

    /// What an actor asks for.
    type Event: Drop;

    /// What the actor gets.
    type Reply;

    /// What counts as a reply. No value of it is made.
    type Answer;

    /// The memory that one event takes, got before the event has its effect.
    type Room;

    ghost state: { Self → Self.State };

    // Any state.
    ghost blank: { Self.State };

    ghost next: { Self.State → ℕ → Self.Event → Self.State };

    ghost answer: { Self.Reply → Self.Answer };

    ghost answer_to: { Self.State → ℕ → Self.Event → Self.Answer };

    ghost is_ready: { Self.State → ℕ → Self.Event → Bool };

    // It speaks of the machine and not of its state alone, since room that lies in the machine is no part of its state.
    ghost fits: { Self.Room → Self → ℕ → Self.Event → Type 0 };

    ghost tells: { Self.Reply → Self.State → ℕ → Self.Event → Type 0 };

    /// Whether this event of this actor may be entered now.
    fn ready(&self, actor: u32, event: &Self::Event) -> bool
        ensures { result ≡ is_ready (state self.now) actor event.now };

    /// Takes all memory that the event needs. The state stays as it was, also where there was no memory.
    fn prepare(&mut self, actor: u32, event: &Self::Event) -> Result<Self::Room, OutOfMemory>
        ensures same { state self.new ≡ state self.old }
        ensures room { IfOk result (λ room. fits room self.new actor event.now) };

    /// Enters the event. It takes no memory that is not in its room, so it cannot fail.
    fn apply(&mut self, actor: u32, event: &Self::Event, room: Self::Room) -> Self::Reply
        requires ready { is_ready (state self.old) actor event.now ≡ true }
        requires room { fits room self.old actor event.now }
        ensures next { state self.new ≡ next (state self.old) actor event.now }
        ensures answer { answer result ≡ answer_to (state self.old) actor event.now }
        ensures tells { tells result (state self.old) actor event.now };
}
