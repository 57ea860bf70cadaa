//! What one client will do.

use crate::call::Call;
use crate::event::Wanted;
use con_units::Units;
use std::marker::Model;

/// One step of a client's script.
pub enum Step {
    /// A call that is answered at once.
    Call(Call),
    /// A wait, to its answer.
    Begin(Wanted),
    /// The client ends, with this status.
    Exit(u32),
}

// By hand, as that of a call.
impl Drop for Step {
    fn drop(self) {
        match self {
            Step::Call(_) => {}
            Step::Begin(_) => {}
            Step::Exit(_) => {}
        }
    }
}

/// Steps in order. Contracts see the list.
#[derive(Drop)]
pub struct Steps(pub Vec<Step>);

impl Model for Steps {
    ghost use Rattle.std.specs.Prelude.{List};
    ghost use Rattle.con_events.specs.declared.script.Step.{Step};

    ghost Value = { List Step };

    ghost view = { λ list. list.0.items };
}

/// A client: its program, its process group, and its steps in order.
pub struct Script {
    pub program: Units,
    pub group: u32,
    pub steps: Steps,
}

// By hand, as that of a call.
impl Drop for Script {
    fn drop(self) {
        let Script {
            program: _,
            group: _,
            steps: _,
        } = self;
    }
}

/// Scripts in order. Contracts see the list.
#[derive(Drop)]
pub struct Scripts(pub Vec<Script>);

impl Model for Scripts {
    ghost use Rattle.std.specs.Prelude.{List};
    ghost use Rattle.con_events.specs.declared.script.Script.{Script};

    ghost Value = { List Script };

    ghost view = { λ list. list.0.items };
}
