//! A client's call, with the memory that was made ready for it.
ghost use Rattle.std.specs.Prelude.{◌≡◌, true};
ghost use Rattle.con_procs.specs.Procs.{is_attached};
ghost use Rattle.con_machine.specs.Call.{called};
ghost use Rattle.con_machine.specs.CallRooms.{IsCallRoom};

use crate::calls::room_calls::take_answer;
use crate::parts::Parts;
use crate::rooms::call_room::CallRoom;
use con_events::{Call, Reply};
use con_history::HistoryInfo;
use con_units::Coord;

pub(crate) mod cell_calls;
pub(crate) mod cells;
pub(crate) mod copies;
pub(crate) mod counting;
pub(crate) mod handle_calls;
pub(crate) mod input_calls;
pub(crate) mod line_calls;
pub(crate) mod process_calls;
pub(crate) mod room_calls;
pub(crate) mod screen_calls;
pub(crate) mod setters;
pub(crate) mod sizing;
pub(crate) mod writing;

impl Parts {
    /// A call of an attached client.
    #[tactic(auto, unfolding(crate::specs::Call::called, crate::specs::CallRooms::IsCallRoom))]
    pub(crate) fn call(&mut self, p: u8, call: &Call, room: &mut CallRoom) -> Reply
        requires attached { is_attached self.old.state.procs p ≡ true }
        requires room { IsCallRoom self.old p call.now room.old }
        ensures state { self.new.state ≡ (called self.old.state p call.now).after }
        ensures reply { result ≡ (called self.old.state p call.now).reply }
    {
        match call {
            Call::BufferCreate(rights) => self.create_buffer_in(p, *rights, room),
            Call::OpenOut(rights) => self.open_out(p, *rights),
            Call::OpenIn(rights) => self.open_in(p, *rights),
            Call::Close(h) => self.close(p, *h),
            Call::Duplicate(h, rights) => self.duplicate(p, *h, *rights),
            Call::Activate(h) => self.activate(p, *h),
            Call::Mode(_) => take_answer(room),
            Call::SetMode(h, mode) => self.set_mode(p, *h, *mode),
            Call::Info(_) => take_answer(room),
            Call::SetSize(handle, w, h) => self.set_size_in(p, *handle, *w, *h, room),
            Call::SetCursor(h, x, y) => self.set_cursor(p, *h, *x, *y),
            Call::CursorInfo(_) => take_answer(room),
            Call::SetCursorInfo(h, size, visible) => self.set_cursor_info(p, *h, *size, *visible),
            Call::SetOrigin(h, x, y) => self.set_origin(p, *h, *x, *y),
            Call::SetAttr(h, word) => self.set_attr(p, *h, *word),
            Call::Title => take_answer(room),
            Call::SetTitle(text) => self.set_title(text.as_slice()),
            Call::Write(h, text) => self.write_in(p, *h, text, room),
            Call::RectRead(_, _) => take_answer(room),
            Call::RectWrite(h, rect, text, words) => {
                self.write_rect_in(p, *h, *rect, text, words, room)
            }
            Call::RunReadUnits(_, _, _, _) => take_answer(room),
            Call::RunReadAttrs(_, _, _, _) => take_answer(room),
            Call::RunWriteUnits(h, x, y, text) => {
                self.write_run_units(p, *h, *x, *y, text.as_slice())
            }
            Call::RunWriteAttrs(h, x, y, words) => {
                self.write_run_words(p, *h, *x, *y, words.as_slice())
            }
            Call::FillUnits(h, x, y, n, unit) => self.fill_units(p, *h, *x, *y, *n, *unit),
            Call::FillAttrs(h, x, y, n, word) => self.fill_words(p, *h, *x, *y, *n, *word),
            Call::Scroll(h, rect, clip, x, y, unit, word) => {
                self.scroll(p, *h, *rect, *clip, Coord { x: *x, y: *y }, *unit, *word)
            }
            Call::Peek(_, _) => take_answer(room),
            Call::WriteInput(h, records) => self.write_input(p, *h, records.0.as_slice()),
            Call::Count(_) => take_answer(room),
            Call::Flush(h) => self.flush(p, *h),
            Call::HistoryInfo => take_answer(room),
            Call::SetHistory(lines, number, flag) => {
                let info = HistoryInfo {
                    lines: *lines,
                    number: *number,
                    flag: *flag,
                };
                self.set_history_in(info, room)
            }
            Call::HistoryList => take_answer(room),
            Call::HistoryClear => self.clear_history(p),
            Call::AliasAdd(program, source, target) => {
                self.add_alias_in(program, source, target, room)
            }
            Call::AliasRemove(program, source) => self.remove_alias(program, source),
            Call::AliasGet(_, _) => take_answer(room),
            Call::AliasList(_) => take_answer(room),
            Call::Processes => take_answer(room),
            Call::Signal(event, group) => self.send_signal(*event, *group),
            Call::Ignore(on) => self.set_ignore(p, *on),
            Call::HandlerAdd(place) => self.add_handler(p, *place),
            Call::HandlerRemove(place) => self.remove_handler(p, *place),
        }
    }
}
