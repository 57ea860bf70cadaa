//! `type`: the link's bytes as a text on one screen, and one frame that shows it.

ghost use Rattle.std.specs.Prelude.{◌≡◌, ◌≢◌, ℕ, ◌+◌, ◌*◌, ◌<◌, ◌≤◌, ◌⊎◌, List, [], ◌∷◌, ◌++◌, length, take};
ghost use Rattle.std.specs.Prelude.{Option, Some, None, IfSome, IfOk, OnOk, IsTrue, flat_map, vec_len, vec_capacity};
ghost use Rattle.con_outside.specs.Outside.{Rose, then_left, then_written};
ghost use Rattle.con_screens.specs.Buffers.{Buffers, with_buffer};
ghost use Rattle.con_screens.specs.Words.Buffers.{AreBuffers};
ghost use Rattle.con_screens.specs.Buffer.{buffer_written};
ghost use Rattle.con_screen.specs.Told.{nothing_told};
ghost use Rattle.con_text.specs.Typing.{Typed};
ghost use Rattle.con_text.specs.Words.Typing.{Typing, opening, ended, ShowsBuffers, PrintsAtMost};

use crate::framing::frame;
use crate::reading::{Listener, ReadEnd, read_link};
use con_dump::decode;
use con_ending::{DONE, LINK, MEMORY, TERMINAL, TOO_LONG, close};
use con_lines::EndLine;
use con_outside::{Fault, Sink, Source, write_whole};
use con_screen::Answers;
use con_screens::Screens;
use con_units::{BufferId, OutOfMemory, Size, Utf8};
use std::alloc::Global;
use std::marker::Model;

const MAIN: BufferId = BufferId(0);

const WINDOW: Size = Size { w: 80, h: 25 };

// Room for the units of 4,096 bytes.
const UNITS: usize = 16_384;

/// What types a text: the buffers that it is written to, and the bytes that are no character yet.
#[derive(Drop)]
pub struct Typist {
    screens: Screens,
    bytes: Utf8,
    units: Vec<u16>,
    answers: Answers,
}

impl Model for Typist {
    ghost use Rattle.con_text.specs.Words.Typing.{Typing};

    ghost Value = { Typing };

    ghost use Rattle.con_text.specs.TypistView.{typing_of, IsTypist};

    ghost view = { typing_of };

    ghost invariant = { IsTypist };
}

// One buffer of 80 by 25, where sequences act.
fn opened(alloc: Global) -> Result<Screens, OutOfMemory>
    ensures buffers { IfOk result (λ s. s ≡ opening) }
    ensures kept { IfOk result (λ s. AreBuffers s) }
{
    let mut screens = Screens::new(alloc, WINDOW)?;
    match screens.screen_mut(MAIN).set_mode(7) {
        Ok(()) => Ok(screens),
        Err(_) => unreachable!(),
    }
}

// Writes units on the main buffer; what they tell is dropped.
fn written(screens: &mut Screens, answers: &mut Answers, units: &[u16]) -> Result<(), OutOfMemory>
    requires buffers { AreBuffers screens.old }
    requires few { length units.now ≤ 16777216 }
    ensures buffers { OnOk result (screens.new ≡ with_buffer screens.old 0 (buffer_written nothing_told units.now)) }
    ensures kept { AreBuffers screens.new }
    ensures sides { (screens.new.w ≡ screens.old.w) × (screens.new.h ≡ screens.old.h) × (screens.new.active ≡ screens.old.active) }
{
    answers.clear(units.len())?;
    screens.write(MAIN, units, answers);
    Ok(())
}

// The frame that shows the active buffer.
fn framed(alloc: Global, screens: &Screens) -> Result<Vec<u8>, OutOfMemory>
    requires buffers { AreBuffers screens.now }
    requires sides { (screens.now.w ≡ 80) × (screens.now.h ≡ 25) }
    ensures shows { IfOk result (λ bytes. ShowsBuffers bytes.items screens.now) }
    ensures few { IfOk result (λ bytes. PrintsAtMost 2000 bytes.items) }
{
    let Ok(rows) = Vec::with_capacity(alloc, 2000) else {
        return Err(OutOfMemory);
    };
    let view = screens.view(rows);
    frame(alloc, &view)
}

impl Typist {
    /// Before any text.
    pub fn new(alloc: Global) -> Result<Typist, OutOfMemory>
        ensures { IfOk result (λ t. t ≡ record { buffers = opening; held = [] }) }
    {
        let screens = opened(alloc)?;
        let answers = Answers::room(alloc, UNITS)?;
        let Ok(units) = Vec::with_capacity(alloc, UNITS) else {
            return Err(OutOfMemory);
        };
        Ok(Typist {
            screens,
            bytes: Utf8::new(),
            units,
            answers,
        })
    }

    /// Ends the text, with one U+FFFD for a character that is cut, and gives the frame that shows it.
    pub fn end(&mut self, alloc: Global) -> Result<Vec<u8>, OutOfMemory>
        ensures shows { IfOk result (λ bytes. ShowsBuffers bytes.items (ended self.old)) }
        ensures few { IfOk result (λ bytes. PrintsAtMost 2000 bytes.items) }
    {
        if self.bytes.held() > 0 {
            written(&mut self.screens, &mut self.answers, &[0xFFFD])?;
        }
        framed(alloc, &self.screens)
    }
}

impl Listener for Typist {
    ghost use Rattle.std.specs.Prelude.{◌≡◌};
    ghost use Rattle.con_text.specs.Words.Typing.{heard};
    ghost use Rattle.con_text.specs.TypedInTurn.{typed_nothing, typed_in_turn};

    ghost became = { λ before bytes after. after ≡ heard before bytes };

    fn hear(&mut self, bytes: &[u8]) -> Result<(), OutOfMemory> {
        decode(&mut self.bytes, bytes, &mut self.units);
        written(&mut self.screens, &mut self.answers, self.units.as_slice())
    }

    ghost nothing_heard = { typed_nothing };

    ghost heard_in_turn = { typed_in_turn };
}

/// Types the link's bytes to its end, and writes one frame that shows the text.
pub fn host_type<I: Source, O: Sink, R: Sink>(
    alloc: Global,
    link: &mut I,
    term: &mut O,
    report: &mut R,
) -> u8
    ensures outcome { (text : List ℕ) × (I.left link.old ≡ then_left text (I.left link.new))
        × Typed result text (I.left link.new) (O.written term.old) (O.written term.new) (R.written report.old) (R.written report.new)
        (Rose (R.faults report.old) (R.faults report.new)) }
    ensures link_failed { result ≡ LINK → Rose (I.faults link.old) (I.faults link.new) }
    ensures term_failed { result ≡ TERMINAL → Rose (O.faults term.old) (O.faults term.new) }
    ensures never_fall { (I.faults link.old ≤ I.faults link.new) × (O.faults term.old ≤ O.faults term.new) × (R.faults report.old ≤ R.faults report.new) }
{
    let Ok(mut typist) = Typist::new(alloc) else {
        return MEMORY;
    };
    match read_link(link, &mut typist) {
        ReadEnd::Failed => return close(alloc, report, &EndLine::Word(LINK, "link")),
        ReadEnd::TooLong => return close(alloc, report, &EndLine::Word(TOO_LONG, "too long")),
        ReadEnd::Memory => return MEMORY,
        ReadEnd::End => {}
    }
    let Ok(bytes) = typist.end(alloc) else {
        return MEMORY;
    };
    match write_whole(term, bytes.as_slice()) {
        Ok(()) => DONE,
        Err(Fault::Failed) => close(alloc, report, &EndLine::Word(TERMINAL, "term")),
        Err(Fault::OutOfMemory) => MEMORY,
    }
}
