// What a handler is.
ghost use Rattle.std.specs.Prelude.{◌≡◌, ℕ, Bool, ◌≤◌};
ghost use Rattle.con_handlers.specs.Answers.{answer, raised};
ghost use Rattle.con_handlers.specs.Memory.{Memory};
ghost use Rattle.con_handlers.specs.Words.Memory.{after_event};

/// A handler of control events, as a `HandlerRoutine` of the Console API: `CTRL_C_EVENT` (0), `CTRL_BREAK_EVENT` (1),
/// `CTRL_CLOSE_EVENT` (2).
pub trait CtrlHandler: Drop {
    // how often it was asked, the event that it was asked last, and its kind
    ghost memory: { Self → Memory };

    // what it will answer to an event
    ghost will: { Self → ℕ → Bool };

    /// Whether it has handled the event.
    fn handle(&mut self, event: u32) -> bool
        ensures answers { result ≡ will self.old event }
        ensures memory { memory self.new ≡ after_event event (memory self.old) }
        ensures few { (memory self.old).kind ≤ 4 }
        ensures by_kind { 1 ≤ (memory self.old).kind
            → result ≡ answer (memory self.old).kind (memory self.old).asked event };
}

/// The count after one more.
pub fn one_more(asked: u64) -> u64
    ensures { result ≡ raised asked }
{
    if asked < u64::MAX { asked + 1 } else { asked }
}
