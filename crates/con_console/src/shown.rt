//! The console's state, to contracts alone.

use std::marker::Model;

/// What a console is to a book of turns. No value of it is made.
#[derive(Drop)]
pub struct Shown {
    nothing: (),
}

impl Model for Shown {
    ghost use Rattle.con_machine.specs.State.{State};
    ghost use Rattle.con_machine.specs.Numbered.{blank_state};

    ghost Value = { State };

    ghost view = { λ _. blank_state };
}
