// Kind 1.
ghost use Rattle.std.specs.Prelude.{◌≡◌, true};
ghost use Rattle.con_handlers.specs.Words.Memory.{memory_of};

use crate::handler::{CtrlHandler, one_more};

/// Handles every event.
#[derive(Drop)]
pub struct Swallow {
    asked: u64,
    last: u32,
}

impl CtrlHandler for Swallow {
    ghost memory = { λ h. memory_of h.asked h.last 1 };

    ghost will = { λ _ _. true };

    fn handle(&mut self, event: u32) -> bool {
        self.asked = one_more(self.asked);
        self.last = event;
        true
    }
}

impl Swallow {
    /// One that was never asked.
    pub fn new() -> Swallow
        ensures { (⟦<Swallow as CtrlHandler>⟧.memory result).asked ≡ 0 }
    {
        Swallow { asked: 0, last: 0 }
    }
}
