//! However the terminal's bytes are cut into Feeds.
ghost use Rattle.std.specs.Prelude.{ℕ, List};
ghost use Rattle.con_laws.specs.Cut.{CutAnywhere};
ghost use Rattle.con_machine.specs.State.{State};

/// A Feed of some bytes and then one of more is as one Feed of all of them, wherever the cut is: within a key, a character, or a report
/// of the mouse.
pub fn bytes_may_be_cut_anywhere()
    ensures { (s : State) (a b : List ℕ) → CutAnywhere s a b }
{}
