//! A read begins.
ghost use Rattle.std.specs.Prelude.{◌≡◌, ◌≤◌, ◌<◌, true, false, [], Some, length, IfOk, OnOk};
ghost use Rattle.con_units.specs.Limits.{line_units};
ghost use Rattle.con_alias.specs.Words.Aliases.{has_control};
ghost use Rattle.con_history.specs.Words.Histories.{room_for_use};
ghost use Rattle.con_procs.specs.Procs.{is_attached, program_of};
ghost use Rattle.con_readers.specs.Reads.{is_open};
ghost use Rattle.con_machine.specs.State.{rest_in};
ghost use Rattle.con_machine.specs.Reads.{back_of, began_read, began_line, first_note, with_read};
ghost use Rattle.con_machine.specs.Words.Reads.{is_no_initial, is_empty, read_answer, records_answer, began_read_input, history_used, line_read, units_read};
ghost use Rattle.con_machine.specs.Began.{IsLineRoom, IsBeginning};
ghost use Rattle.con_readers.specs.declared.open.OpenRead.TheVariants as reads;

use crate::calls::copies::text;
use crate::calls::screen_calls::has_bit;
use crate::parts::Parts;
use crate::reads::fronts::line_front;
use crate::reads::noted::Noted;
use crate::rooms::read_room::{Beginning, LineRoom};
use crate::rooms::unused::refused;
use con_alias::has_control;
use con_cooked::Cooked;
use con_events::Reply;
use con_handles::Kind;
use con_page::Origin;
use con_readers::{Answer, OpenRead, WantsRecords, WantsUnits};
use con_units::limits::{LINE_UNITS, MOST_ITEMS, MOST_RECORDS};
use con_units::{BufferId, Code, OutOfMemory, Units};

/// The input mode bits of lines and of echo.
const LINE_INPUT: u32 = 0x0002;

const ECHO_INPUT: u32 = 0x0004;

/// The most units that the text of a line has, with its expansion and CR LF.
const TEXT_UNITS: usize = 5122;

// Whether a read can't begin with a text: it has a control, or more than 1,024 units, or more than are asked for.
fn is_no_initial(initial: &[u16], n: u32) -> bool
    ensures { result ≡ is_no_initial initial.now n }
{
    has_control(initial) || LINE_UNITS < initial.len() || (n as usize) < initial.len()
}

fn is_empty(units: &[u16]) -> bool
    ensures { result ≡ is_empty units.now }
{
    units.is_empty()
}

impl Parts {
    // Whether a read of units may begin.
    fn check_read(&self, p: u8, h: u32, n: u32, initial: &[u16]) -> Result<(), Code>
        ensures { result ≡ read_answer self.now.state p h n initial.now }
    {
        match self.guard(p, h, Kind::Input, 1) {
            Err(code) => Err(code),
            Ok(_) => {
                if self.readers.open(p) || is_no_initial(initial, n) {
                    Err(Code::BadArgument)
                } else if MOST_ITEMS < n as usize {
                    Err(Code::Limit)
                } else {
                    Ok(())
                }
            }
        }
    }

    // Whether a read of records may begin.
    fn check_records(&self, p: u8, h: u32, n: u32) -> Result<(), Code>
        ensures { result ≡ records_answer self.now.state p h n }
    {
        match self.guard(p, h, Kind::Input, 1) {
            Err(code) => Err(code),
            Ok(_) => {
                if self.readers.open(p) || n == 0 {
                    Err(Code::BadArgument)
                } else if MOST_RECORDS < n as usize {
                    Err(Code::Limit)
                } else {
                    Ok(())
                }
            }
        }
    }

    // What is noted of a line read when it begins.
    fn first_note(&self, p: u8, h: u32, n: u32, initial: &[u16]) -> Noted
        requires { length initial.now ≤ line_units }
        ensures { result ≡ first_note self.now.state p h n initial.now }
    {
        Noted {
            process: p,
            handle: h,
            n,
            echoes: has_bit(self.mode, LINE_INPUT) && has_bit(self.mode, ECHO_INPUT),
            ahead: initial.len() as u16,
            buffer: BufferId(0),
            birth: 0,
            origin: Origin { x: 0, y: 0 },
            woken: false,
        }
    }

    // A read of a line begins.
    fn begin_line(&mut self, p: u8, h: u32, n: u32, initial: &[u16], mask: u32, room: LineRoom)
        requires attached { is_attached self.old.state.procs p ≡ true }
        requires none { is_open self.old.state.reads p ≡ false }
        requires few { length initial.now ≤ line_units }
        requires reads { 0 < self.old.spare.reads }
        requires noted { 0 < self.old.spare.noted }
        requires rests { 0 < self.old.spare.rests }
        requires room { IsLineRoom room self.old.state p h n initial.now mask }
        ensures { self.new.state ≡ began_line (history_used self.old.state p) p h n initial.now mask }
    {
        let LineRoom {
            read,
            history,
            back,
            rest,
        } = room;
        self.histories
            .use_of(self.procs.program(p), self.procs.programs(), history);
        self.readers.begin(p, read);
        if n == 0 {
            return;
        }
        if is_empty(self.rests.of(p, h)) {
            let note = self.first_note(p, h, n, initial);
            self.notes.put(note);
            self.rests.begin(p, h, rest);
        } else {
            self.rests.set(p, h, back);
        }
    }

    /// `ReadConsole`. 87: the client has an open read, or the line can't begin with this text; 1816: more than 16,384 units.
    pub(crate) fn begin_read(
        &mut self,
        p: u8,
        h: u32,
        n: u32,
        initial: &[u16],
        mask: u32,
        room: Beginning,
    ) -> Reply
        requires attached { is_attached self.old.state.procs p ≡ true }
        requires reads { 0 < self.old.spare.reads }
        requires noted { 0 < self.old.spare.noted }
        requires rests { 0 < self.old.spare.rests }
        requires room { OnOk (read_answer self.old.state p h n initial.now) (IsBeginning room self.old.state p h n initial.now mask) }
        ensures state { self.new.state ≡ (began_read self.old.state p h n initial.now mask).after }
        ensures reply { result ≡ (began_read self.old.state p h n initial.now mask).reply }
    {
        match self.check_read(p, h, n, initial) {
            Err(code) => refused(code, room),
            Ok(()) => {
                match room {
                    Beginning::Refused => unreachable!(),
                    Beginning::Line(room) => self.begin_line(p, h, n, initial, mask, room),
                    Beginning::Plain(read) => self.readers.begin(p, read),
                }
                Reply::Done
            }
        }
    }

    /// `ReadConsoleInput`. 87: the client has an open read, or asks for no record; 1816: for more than 1,024.
    pub(crate) fn begin_records(
        &mut self,
        p: u8,
        h: u32,
        n: u32,
        room: Option<WantsRecords>,
    ) -> Reply
        requires reads { 0 < self.old.spare.reads }
        requires room { OnOk (records_answer self.old.state p h n) (room ≡ Some n) }
        ensures state { self.new.state ≡ (began_read_input self.old.state p h n).after }
        ensures reply { result ≡ (began_read_input self.old.state p h n).reply }
    {
        match self.check_records(p, h, n) {
            Err(code) => Reply::Fail(code),
            Ok(()) => {
                let Some(wants) = room else { unreachable!() };
                self.readers.begin(p, OpenRead::Records(wants));
                Reply::Done
            }
        }
    }

    // The read that a line read opens.
    fn line_read(
        &self,
        p: u8,
        h: u32,
        n: u32,
        initial: &[u16],
        mask: u32,
    ) -> Result<OpenRead, OutOfMemory>
        requires attached { is_attached self.now.state.procs p ≡ true }
        requires few { length initial.now ≤ line_units }
        requires plain { has_control initial.now ≡ false }
        ensures { IfOk result (λ r. r ≡ line_read self.now.state p n (rest_in self.now.state.rests p h) initial.now mask) }
    {
        let alloc = self.title.allocator();
        if n == 0 {
            return Ok(OpenRead::Done(Answer::Units(Units(Vec::new(alloc)))));
        }
        let rest = self.rests.of(p, h);
        if is_empty(rest) {
            let program = self.procs.program(p).copied()?;
            let read = Cooked::begin(alloc, program, self.mode, initial, mask)?;
            return Ok(OpenRead::Line(read));
        }
        let end = line_front(n as usize, rest);
        Ok(OpenRead::Done(Answer::Units(text(alloc, &rest[..end])?)))
    }

    // What is left of a handle's rest after a read of it.
    fn line_back(&self, p: u8, h: u32, n: u32) -> Result<Units, OutOfMemory>
        ensures { IfOk result (λ u. u ≡ back_of n (rest_in self.now.state.rests p h)) }
    {
        let rest = self.rests.of(p, h);
        let end = line_front(n as usize, rest);
        text(self.title.allocator(), &rest[end..])
    }

    // Room for all that the line of a read may leave, where the read opens.
    fn rest_room(&self, p: u8, h: u32, n: u32) -> Result<Units, OutOfMemory>
        ensures { IfOk result (λ u. u ≡ []) }
    {
        let alloc = self.title.allocator();
        if n == 0 || !is_empty(self.rests.of(p, h)) {
            return Ok(Units(Vec::new(alloc)));
        }
        match Vec::with_capacity(alloc, TEXT_UNITS) {
            Ok(room) => Ok(Units(room)),
            Err(_) => Err(OutOfMemory),
        }
    }

    // The memory of a line read.
    fn line_room(
        &mut self,
        p: u8,
        h: u32,
        n: u32,
        initial: &[u16],
        mask: u32,
    ) -> Result<LineRoom, OutOfMemory>
        requires attached { is_attached self.old.state.procs p ≡ true }
        requires few { length initial.now ≤ line_units }
        requires plain { has_control initial.now ≡ false }
        ensures room { IfOk result (λ r. IsLineRoom r self.old.state p h n initial.now mask) }
        ensures same { self.new ≡ self.old }
    {
        let back = self.line_back(p, h, n)?;
        let history = self.histories.use_room(self.procs.program(p))?;
        let read = self.line_read(p, h, n, initial, mask)?;
        let rest = self.rest_room(p, h, n)?;
        Ok(LineRoom {
            read,
            history,
            back,
            rest,
        })
    }

    // The read that a read of units opens.
    fn units_read(&self, n: u32) -> Result<OpenRead, OutOfMemory>
        ensures { IfOk result (λ r. r ≡ units_read n) }
    {
        let alloc = self.title.allocator();
        if n == 0 {
            return Ok(OpenRead::Done(Answer::Units(Units(Vec::new(alloc)))));
        }
        Ok(OpenRead::Units(WantsUnits::new(alloc, n)?))
    }

    /// The memory of a read of units.
    pub(crate) fn read_room(
        &mut self,
        p: u8,
        h: u32,
        n: u32,
        initial: &[u16],
        mask: u32,
    ) -> Result<Beginning, OutOfMemory>
        requires attached { is_attached self.old.state.procs p ≡ true }
        ensures room { IfOk result (λ r. OnOk (read_answer self.old.state p h n initial.now) (IsBeginning r self.old.state p h n initial.now mask)) }
        ensures same { self.new ≡ self.old }
    {
        if self.check_read(p, h, n, initial).is_err() {
            return Ok(Beginning::Refused);
        }
        if has_bit(self.mode, LINE_INPUT) {
            Ok(Beginning::Line(self.line_room(p, h, n, initial, mask)?))
        } else {
            Ok(Beginning::Plain(self.units_read(n)?))
        }
    }

    /// The memory of a read of records.
    pub(crate) fn read_input_room(
        &self,
        p: u8,
        h: u32,
        n: u32,
    ) -> Result<Option<WantsRecords>, OutOfMemory>
        ensures room { IfOk result (λ r. OnOk (records_answer self.now.state p h n) (r ≡ Some n)) }
    {
        if self.check_records(p, h, n).is_err() {
            return Ok(None);
        }
        Ok(Some(WantsRecords::new(self.title.allocator(), n)?))
    }
}
