// Kind 3.
ghost use Rattle.std.specs.Prelude.{◌≡◌, ◌==◌};
ghost use Rattle.con_handlers.specs.Words.Memory.{memory_of};

use crate::handler::{CtrlHandler, one_more};

/// Handles the first event that it is asked.
#[derive(Drop)]
pub struct Once {
    asked: u64,
    last: u32,
}

impl CtrlHandler for Once {
    ghost memory = { λ h. memory_of h.asked h.last 3 };

    ghost will = { λ h _. h.asked == 0 };

    fn handle(&mut self, event: u32) -> bool {
        let first = self.asked == 0;
        self.asked = one_more(self.asked);
        self.last = event;
        first
    }
}

impl Once {
    /// One that was never asked.
    pub fn new() -> Once
        ensures { (⟦<Once as CtrlHandler>⟧.memory result).asked ≡ 0 }
    {
        Once { asked: 0, last: 0 }
    }
}
