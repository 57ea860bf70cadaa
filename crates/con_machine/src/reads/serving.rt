//! Open reads are served, and what happens shows on the screen.
ghost use Rattle.std.specs.Prelude.{◌≡◌, ℕ, ◌≤◌, ◌<◌, true, false, Option, Some, length, not, is_some};
ghost use Rattle.con_cooked.specs.declared.cooked.Cooked.{Cooked};
ghost use Rattle.con_cooked.specs.Cooked.{line_of};
ghost use Rattle.con_cooked.specs.Words.Cooked.{echo_between};
ghost use Rattle.con_readers.specs.Act.{Act};
ghost use Rattle.con_readers.specs.Words.Act.{IsOf, IsIn};
ghost use Rattle.con_readers.specs.Lines.{line_text};
ghost use Rattle.con_readers.specs.Reads.{settled};
ghost use Rattle.con_readers.specs.Words.Reads.{head_text, work, settled_after};
ghost use Rattle.con_readers.specs.Steps.{is_idle};
ghost use Rattle.con_machine.specs.State.{noted_of};
ghost use Rattle.con_machine.specs.Serving.{settled_state};
ghost use Rattle.con_machine.specs.Words.Serving.{read_started, line_shown, line_finished, line_woken};
ghost use Rattle.con_machine.specs.Pumping.{pumped_of, with_pumped, followed_by, stepped, IsTold};

use crate::parts::Parts;
use crate::reads::echoes;
use con_cooked::Echo;
use con_readers::{ReadStep, is_idle};

impl Parts {
    // A read becomes the first one.
    fn start_read(&mut self, p: u8)
        ensures state { self.new.state ≡ read_started self.old.state p }
        ensures spare { self.new.spare ≡ self.old.spare }
    {
        let id = self.screens.active();
        let birth = self.screens.birth(id);
        let spot = echoes::cursor_of(&self.screens, id);
        self.notes.start(p, id, birth, spot.width, spot.x, spot.y);
    }

    // Its line took a record.
    fn show_line(&mut self, p: u8, echo: Echo)
        requires inside { (echo.offset ≤ echo.end) × (echo.end ≡ length (head_text self.old.state.reads)) }
        ensures state { (old new : Cooked) → echo ≡ echo_between (line_of old).line (line_of new).line → head_text self.old.state.reads ≡ line_text new
            → self.new.state ≡ line_shown self.old.state (noted_of self.old.state.noted p) old new }
        ensures spare { self.new.spare ≡ self.old.spare }
    {
        let Some(note) = self.notes.of(p) else {
            return;
        };
        if echoes::shows_line(&self.screens, &note) {
            let text = self.readers.head_text();
            let origin = echoes::show(&mut self.screens, note.buffer, note.origin, echo, text);
            self.notes.set_origin(note.process, origin);
        }
    }

    // Its line is done.
    fn finish_line(&mut self, p: u8, length: u16)
        ensures state { self.new.state ≡ line_finished self.old.state (noted_of self.old.state.noted p) length }
        ensures spare { self.new.spare ≡ self.old.spare }
    {
        let Some(note) = self.notes.of(p) else {
            return;
        };
        if echoes::shows_line(&self.screens, &note) {
            echoes::show_end(&mut self.screens, note.buffer, note.origin, length);
        }
    }

    // What is seen of a step.
    fn follow(&mut self, step: ReadStep)
        requires inside { IsIn step (head_text self.old.state.reads) }
        ensures state { (act : Option Act) → IsOf step act → IsTold act self.old.state.reads → self.new.state ≡ followed_by self.old.state act }
        ensures spare { self.new.spare ≡ self.old.spare }
    {
        match step {
            ReadStep::Idle => {}
            ReadStep::Started(p) => self.start_read(p),
            ReadStep::Echo(p, echo) => self.show_line(p, echo),
            ReadStep::Dropped(_) => {}
            ReadStep::Finished(p, length) => self.finish_line(p, length),
            ReadStep::Woken(p) => self.notes.wake(p),
        }
    }

    // One step of the reads.
    fn pump(&mut self) -> ReadStep
        ensures state { self.new.state ≡ with_pumped self.old.state (pumped_of self.old.state) }
        ensures spare { self.new.spare ≡ self.old.spare }
        ensures tells { IsOf result (pumped_of self.old.state).act }
        ensures told { IsTold (pumped_of self.old.state).act (pumped_of self.old.state).reads }
        ensures inside { IsIn result (head_text (pumped_of self.old.state).reads) }
        ensures idle { is_idle result ≡ not (is_some (pumped_of self.old.state).act) }
        ensures settles { settled self.old.state.aliases self.old.state.reads self.old.state.records self.old.state.histories
            ≡ settled_after self.old.state.aliases (pumped_of self.old.state) }
        ensures less { is_some (pumped_of self.old.state).act ≡ true
            → work (pumped_of self.old.state).reads (pumped_of self.old.state).records < work self.old.state.reads self.old.state.records }
    {
        self.readers
            .pump(&mut self.records, &mut self.histories, &self.aliases)
    }

    // One step, and what is seen of it. False: none is left.
    fn serve_one(&mut self) -> bool
        ensures goes { result ≡ true → settled_state self.new.state ≡ settled_state self.old.state }
        ensures ends { result ≡ false → self.new.state ≡ settled_state self.old.state }
        ensures less { result ≡ true → work self.new.state.reads self.new.state.records < work self.old.state.reads self.old.state.records }
        ensures spare { self.new.spare ≡ self.old.spare }
    {
        let step = self.pump();
        self.follow(step);
        !is_idle(step)
    }

    /// Serves the open reads: the first one takes records until it is done or none is left, then the next one follows.
    pub fn settle(&mut self)
        ensures state { self.new.state ≡ settled_state self.old.state }
        ensures spare { self.new.spare ≡ self.old.spare }
    {
        while self.serve_one() {}
    }
}
