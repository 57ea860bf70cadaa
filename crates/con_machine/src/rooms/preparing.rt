//! The memory that a client's call takes, got before it has its effect.
ghost use Rattle.std.specs.Prelude.{◌≡◌, ◌≤◌, ◌<◌, length, true, IsTrue, IfOk};
ghost use Rattle.con_units.specs.Limits.{most_records};
ghost use Rattle.con_alias.specs.Room.{room_for, has_room};
ghost use Rattle.con_history.specs.Words.Histories.{room_for_configure};
ghost use Rattle.con_machine.specs.CallRooms.{IsCallRoom, IsBufferRoom, IsFitRoom, IsTextRoom, IsCellRoom};
ghost use Rattle.con_machine.specs.CellCalls.{are_cells};
ghost use Rattle.con_machine.specs.declared.rooms.call_room.CallRoom.TheVariants as rooms;
ghost use Rattle.con_procs.specs.Procs.{is_attached};

use crate::calls::cell_calls::rect_room;
use crate::parts::Parts;
use crate::rooms::call_room::CallRoom;
use con_events::{Call, Words};
use con_history::HistoryInfo;
use con_records::Taken;
use con_screen::Answers;
use con_units::limits::{MOST_ITEMS, MOST_RECORDS};
use con_units::{OutOfMemory, Rect, Units};

// This number, or none where it is above a limit.
fn within(n: usize, most: usize) -> usize
    ensures is { n ≤ most → result ≡ n }
    ensures small { result ≤ most }
{
    if n <= most { n } else { 0 }
}

impl Parts {
    // Room for one handle more.
    fn handle_room(&mut self) -> Result<CallRoom, OutOfMemory>
        ensures state { self.new.state ≡ self.old.state }
        ensures room { IfOk result (λ _. 0 < self.new.spare.handles) }
    {
        self.handles.reserve()?;
        Ok(CallRoom::Nothing)
    }

    fn buffer_room(&mut self) -> Result<CallRoom, OutOfMemory>
        ensures state { self.new.state ≡ self.old.state }
        ensures room { IfOk result (λ room. IsBufferRoom self.new room) }
    {
        self.handles.reserve()?;
        Ok(CallRoom::Buffer(self.screens.create_room()?))
    }

    fn fit_room(&self, p: u8, handle: u32, w: u32, h: u32) -> Result<CallRoom, OutOfMemory>
        ensures { IfOk result (λ room. IsFitRoom self.now p handle w h room) }
    {
        Ok(CallRoom::Size(self.size_room(p, handle, w, h)?))
    }

    fn text_room(&mut self, text: &Units) -> Result<CallRoom, OutOfMemory>
        ensures state { self.new.state ≡ self.old.state }
        ensures room { IfOk result (λ room. IsTextRoom self.new text.now room) }
    {
        let count = within(text.len(), MOST_ITEMS);
        self.records.reserve(10 * count)?;
        Ok(CallRoom::Text(Answers::room(self.title.allocator(), count)?))
    }

    fn cell_room(&self, rect: Rect, text: &Units, words: &Words) -> Result<CallRoom, OutOfMemory>
        ensures { IfOk result (λ room. IsCellRoom text.now words.now (are_cells rect text.now words.now ≡ true) room) }
    {
        let room = rect_room(self.title.allocator(), rect, text, words)?;
        Ok(CallRoom::Cells(room))
    }

    fn write_room(&mut self, records: &Taken) -> Result<CallRoom, OutOfMemory>
        ensures state { self.new.state ≡ self.old.state }
        ensures room { IfOk result (λ _. length records.now ≤ most_records → length records.now ≤ self.new.spare.records) }
    {
        self.records.reserve(within(records.0.len(), MOST_RECORDS))?;
        Ok(CallRoom::Nothing)
    }

    fn settings_room(&mut self, info: HistoryInfo) -> Result<CallRoom, OutOfMemory>
        ensures state { self.new.state ≡ self.old.state }
        ensures room { IfOk result (λ room. room ≡ rooms.Settings (room_for_configure self.new.state.histories info)) }
    {
        Ok(CallRoom::Settings(self.histories.configure_room(&info)?))
    }

    fn alias_room(
        &mut self,
        program: &Units,
        source: &Units,
        target: &Units,
    ) -> Result<CallRoom, OutOfMemory>
        ensures state { self.new.state ≡ self.old.state }
        ensures room { IfOk result (λ room. room ≡ rooms.Alias (room_for self.new.state.aliases program.now source.now target.now)) }
        ensures ready { IfOk result (λ _. IsTrue (has_room self.new.spare.aliases program.now)) }
    {
        let room = self.aliases.add_room(program, source, target)?;
        Ok(CallRoom::Alias(room))
    }

    /// Takes all memory that a call of an attached client needs, and makes the answer of one that changes nothing. The
    /// state stays as it was, also where there was no memory.
    #[tactic(auto, unfolding(crate::specs::CallRooms::IsCallRoom))]
    pub(crate) fn call_room(&mut self, p: u8, call: &Call) -> Result<CallRoom, OutOfMemory>
        requires attached { is_attached self.old.state.procs p ≡ true }
        ensures state { self.new.state ≡ self.old.state }
        ensures room { IfOk result (λ room. IsCallRoom self.new p call.now room) }
    {
        match call {
            Call::BufferCreate(_) => self.buffer_room(),
            Call::OpenOut(_) => self.handle_room(),
            Call::OpenIn(_) => self.handle_room(),
            Call::Close(_) => Ok(CallRoom::Nothing),
            Call::Duplicate(_, _) => self.handle_room(),
            Call::Activate(_) => Ok(CallRoom::Nothing),
            Call::Mode(h) => Ok(CallRoom::Told(self.told_mode(p, *h))),
            Call::SetMode(_, _) => Ok(CallRoom::Nothing),
            Call::Info(h) => Ok(CallRoom::Told(self.told_info(p, *h)?)),
            Call::SetSize(handle, w, h) => self.fit_room(p, *handle, *w, *h),
            Call::SetCursor(_, _, _) => Ok(CallRoom::Nothing),
            Call::CursorInfo(h) => Ok(CallRoom::Told(self.told_cursor(p, *h)?)),
            Call::SetCursorInfo(_, _, _) => Ok(CallRoom::Nothing),
            Call::SetOrigin(_, _, _) => Ok(CallRoom::Nothing),
            Call::SetAttr(_, _) => Ok(CallRoom::Nothing),
            Call::Title => Ok(CallRoom::Told(self.told_title()?)),
            Call::SetTitle(_) => Ok(CallRoom::Nothing),
            Call::Write(_, text) => self.text_room(text),
            Call::RectRead(h, rect) => Ok(CallRoom::Told(self.told_rect(p, *h, *rect)?)),
            Call::RectWrite(_, rect, text, words) => self.cell_room(*rect, text, words),
            Call::RunReadUnits(h, x, y, n) => {
                Ok(CallRoom::Told(self.told_run_units(p, *h, *x, *y, *n)?))
            }
            Call::RunReadAttrs(h, x, y, n) => {
                Ok(CallRoom::Told(self.told_run_words(p, *h, *x, *y, *n)?))
            }
            Call::RunWriteUnits(_, _, _, _) => Ok(CallRoom::Nothing),
            Call::RunWriteAttrs(_, _, _, _) => Ok(CallRoom::Nothing),
            Call::FillUnits(_, _, _, _, _) => Ok(CallRoom::Nothing),
            Call::FillAttrs(_, _, _, _, _) => Ok(CallRoom::Nothing),
            Call::Scroll(_, _, _, _, _, _, _) => Ok(CallRoom::Nothing),
            Call::Peek(h, n) => Ok(CallRoom::Told(self.told_records(p, *h, *n)?)),
            Call::WriteInput(_, records) => self.write_room(records),
            Call::Count(h) => Ok(CallRoom::Told(self.told_count(p, *h))),
            Call::Flush(_) => Ok(CallRoom::Nothing),
            Call::HistoryInfo => Ok(CallRoom::Told(self.told_history_info()?)),
            Call::SetHistory(lines, number, flag) => self.settings_room(HistoryInfo {
                lines: *lines,
                number: *number,
                flag: *flag,
            }),
            Call::HistoryList => Ok(CallRoom::Told(self.told_history(p)?)),
            Call::HistoryClear => Ok(CallRoom::Nothing),
            Call::AliasAdd(program, source, target) => self.alias_room(program, source, target),
            Call::AliasRemove(_, _) => Ok(CallRoom::Nothing),
            Call::AliasGet(program, source) => {
                Ok(CallRoom::Told(self.told_alias(program, source)?))
            }
            Call::AliasList(program) => Ok(CallRoom::Told(self.told_aliases(program)?)),
            Call::Processes => Ok(CallRoom::Told(self.told_processes()?)),
            Call::Signal(_, _) => Ok(CallRoom::Nothing),
            Call::Ignore(_) => Ok(CallRoom::Nothing),
            Call::HandlerAdd(_) => Ok(CallRoom::Nothing),
            Call::HandlerRemove(_) => Ok(CallRoom::Nothing),
        }
    }
}
