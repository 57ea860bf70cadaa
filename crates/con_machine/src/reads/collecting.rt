//! A read is collected.
ghost use Rattle.std.specs.Prelude.{◌≡◌, true, Some, slice_get, IfOk};
ghost use Rattle.con_readers.specs.Reads.{has_done, answer_in, place_of};
ghost use Rattle.con_machine.specs.State.{noted_of};
ghost use Rattle.con_machine.specs.Words.State.{has_rest};
ghost use Rattle.con_machine.specs.Reads.{collected};
ghost use Rattle.con_machine.specs.Words.Reads.{part_left, line_cut};
ghost use Rattle.con_machine.specs.Began.{HasBack};

use crate::parts::Parts;
use crate::reads::fronts;
use crate::reads::noted::Noted;
use con_events::Reply;
use con_readers::Answer;
use con_units::{OutOfMemory, Units};

impl Parts {
    /// The memory of a Collect: what of a line's text is left for its handle, in memory that was taken when the read began. Nothing is left for a
    /// handle that was closed.
    pub(crate) fn collect_room(&mut self, p: u8) -> Result<Option<Units>, OutOfMemory>
        ensures room { IfOk result (λ back. HasBack self.old.state.rests back (noted_of self.old.state.noted p)
            (answer_in (slice_get self.old.state.reads (place_of self.old.state.reads p)))) }
        ensures same { self.new ≡ self.old }
    {
        let Some(note) = self.notes.of(p) else {
            return Ok(None);
        };
        if !self.rests.has(note.process, note.handle) {
            return Ok(None);
        }
        if self.readers.answer(p).is_none() {
            return Ok(None);
        }
        let room = self.rests.take_room(note.process, note.handle);
        let Some(answer) = self.readers.answer(p) else {
            return Ok(None);
        };
        match answer {
            Answer::Units(units) => {
                let back = fronts::part_left(room, &note, units.as_slice())?;
                Ok(Some(back))
            }
            Answer::Records(_) => Ok(None),
            Answer::Fail(_) => Ok(None),
        }
    }

    // Of a line's text a part answers, and what follows is left for the handle, unless it was closed.
    fn cut_line(&mut self, note: Noted, units: Units, back: Option<Units>) -> Reply
        requires { has_rest self.old.state.rests note.process note.handle ≡ true → back ≡ Some (part_left note units) }
        ensures state { self.new.state ≡ (line_cut self.old.state note units).after }
        ensures reply { result ≡ (line_cut self.old.state note units).reply }
    {
        if !self.rests.has(note.process, note.handle) {
            return Reply::Units(fronts::part_told(&note, units));
        }
        let Some(back) = back else { unreachable!() };
        self.rests.set(note.process, note.handle, back);
        Reply::Units(fronts::part_told(&note, units))
    }

    /// The answer of the client's read, which is done; the read goes.
    #[tactic(auto, unfolding(crate::specs::Reads::collected))]
    pub(crate) fn collect(&mut self, p: u8, back: Option<Units>) -> Reply
        requires done { has_done self.old.state.reads p ≡ true }
        requires room { HasBack self.old.state.rests back (noted_of self.old.state.noted p)
            (answer_in (slice_get self.old.state.reads (place_of self.old.state.reads p))) }
        ensures state { self.new.state ≡ (collected self.old.state p).after }
        ensures reply { result ≡ (collected self.old.state p).reply }
    {
        let note = self.notes.of(p);
        let answer = self.readers.collect(p);
        self.notes.drop_of(p);
        match answer {
            Answer::Records(records) => Reply::Records(records),
            Answer::Fail(code) => Reply::Fail(code),
            Answer::Units(units) => match note {
                None => Reply::Units(units),
                Some(note) => self.cut_line(note, units, back),
            },
        }
    }
}
