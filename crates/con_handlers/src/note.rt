// Kind 2.
ghost use Rattle.std.specs.Prelude.{◌≡◌, false};
ghost use Rattle.con_handlers.specs.Words.Memory.{memory_of};

use crate::handler::{CtrlHandler, one_more};

/// Handles none, and only counts them.
#[derive(Drop)]
pub struct Note {
    asked: u64,
    last: u32,
}

impl CtrlHandler for Note {
    ghost memory = { λ h. memory_of h.asked h.last 2 };

    ghost will = { λ _ _. false };

    fn handle(&mut self, event: u32) -> bool {
        self.asked = one_more(self.asked);
        self.last = event;
        false
    }
}

impl Note {
    /// One that was never asked.
    pub fn new() -> Note
        ensures { (⟦<Note as CtrlHandler>⟧.memory result).asked ≡ 0 }
    {
        Note { asked: 0, last: 0 }
    }
}
