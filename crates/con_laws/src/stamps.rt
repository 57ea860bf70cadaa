//! Nothing that a console does depends on the stamps of its rows.
ghost use Rattle.std.specs.Prelude.{◌≡◌, List};
ghost use Rattle.con_events.specs.declared.entry.Entry.{Entry};
ghost use Rattle.con_machine.specs.State.{State};
ghost use Rattle.con_machine.specs.Painting.{view_now};
ghost use Rattle.con_laws.specs.Unstamped.{AreSame, ActAlike, RunAlike};

/// Two consoles that differ only in the numbers of their grids, and in what their cells were when these were raised, show the same view;
/// every entry is ready, answered and put in alike in both, and leaves them different in nothing else; and so does every history.
pub fn stamps_change_nothing()
    ensures view { (s t : State) → AreSame s t → view_now s ≡ view_now t }
    ensures entry { (s t : State) (x : Entry) → AreSame s t → ActAlike s t x }
    ensures history { (s t : State) (h : List Entry) → AreSame s t → RunAlike s t h }
{}
