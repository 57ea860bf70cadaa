// Kind 4.
ghost use Rattle.std.specs.Prelude.{◌≡◌, ◌==◌, not};
ghost use Rattle.con_handlers.specs.Words.Memory.{memory_of};

use crate::handler::{CtrlHandler, one_more};

/// Handles every event but ctrl+C.
#[derive(Drop)]
pub struct Tally {
    asked: u64,
    last: u32,
}

impl CtrlHandler for Tally {
    ghost memory = { λ h. memory_of h.asked h.last 4 };

    ghost will = { λ _ event. not (event == 0) };

    fn handle(&mut self, event: u32) -> bool {
        self.asked = one_more(self.asked);
        self.last = event;
        event != 0
    }
}

impl Tally {
    /// One that was never asked.
    pub fn new() -> Tally
        ensures { (⟦<Tally as CtrlHandler>⟧.memory result).asked ≡ 0 }
    {
        Tally { asked: 0, last: 0 }
    }
}
