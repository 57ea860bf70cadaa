//! A history is played on the console.
ghost use Rattle.std.specs.Prelude.{◌≡◌, true, map, IfOk, IfErr};
ghost use Rattle.con_machine.specs.History.{run, replies_of, is_legal};
ghost use Rattle.con_machine.specs.Words.History.{RanFront};
ghost use Rattle.con_machine.specs.Marks.{told};

use crate::console::Console;
use con_events::{Entry, Reply};
use con_units::OutOfMemory;

impl Console {
    /// Enters a history's events in order, each of which is ready where it stands. The console is what the history makes
    /// of it, and the replies are those of its steps, a Paint's without its marks. Where there is no memory, the events in
    /// front were entered, and none behind them.
    pub fn play(&mut self, entries: &[Entry]) -> Result<Vec<Reply>, OutOfMemory>
        requires legal { is_legal self.old.state entries.now ≡ true }
        ensures state { IfOk result (λ _. self.new.state ≡ run self.old.state entries.now) }
        ensures replies { IfOk result (λ rs. map told rs.items ≡ replies_of self.old.state entries.now) }
        ensures stopped { IfErr result (λ _. RanFront self.old.state entries.now self.new.state) }
    {
        let Ok(mut replies) = Vec::with_capacity(self.parts.allocator(), entries.len()) else {
            return Err(OutOfMemory);
        };
        for entry in entries {
            let room = self.prepare(entry.actor, &entry.event)?;
            replies.push_reserved(self.apply(entry.actor, &entry.event, room));
        }
        Ok(replies)
    }
}
