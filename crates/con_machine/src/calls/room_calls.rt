//! Calls that are given memory.
ghost use Rattle.std.specs.Prelude.{◌≡◌, true, IsTrue};
ghost use Rattle.con_alias.specs.Room.{room_for, has_room};
ghost use Rattle.con_history.specs.Words.Histories.{room_for_configure};
ghost use Rattle.con_machine.specs.CallRooms.{is_answer, IsBufferRoom, IsFitRoom, IsTextRoom, IsCellRoom};
ghost use Rattle.con_machine.specs.CellCalls.{are_cells};
ghost use Rattle.con_machine.specs.Words.CellCalls.{wrote_rect};
ghost use Rattle.con_machine.specs.Words.HandleCalls.{created_buffer};
ghost use Rattle.con_machine.specs.LineCalls.{set_history, added_alias};
ghost use Rattle.con_machine.specs.Words.ScreenCalls.{set_size, wrote};
ghost use Rattle.con_machine.specs.declared.rooms.call_room.CallRoom.TheVariants as rooms;

use crate::parts::Parts;
use crate::rooms::call_room::CallRoom;
use con_events::{Reply, Words};
use con_history::HistoryInfo;
use con_units::{Rect, Units};
use std::mem;

/// Takes the answer that was made ready.
pub(crate) fn take_answer(room: &mut CallRoom) -> Reply
    requires { is_answer room.old ≡ true }
    ensures { room.old ≡ rooms.Told result }
{
    match mem::replace(room, CallRoom::Nothing) {
        CallRoom::Told(reply) => reply,
        _ => unreachable!(),
    }
}

impl Parts {
    /// [`Parts::create_buffer`] with its room.
    pub(crate) fn create_buffer_in(&mut self, p: u8, rights: u32, room: &mut CallRoom) -> Reply
        requires { IsBufferRoom self.old room.old }
        ensures state { self.new.state ≡ (created_buffer self.old.state p rights).after }
        ensures reply { result ≡ (created_buffer self.old.state p rights).reply }
    {
        match mem::replace(room, CallRoom::Nothing) {
            CallRoom::Buffer(buffer) => self.create_buffer(p, rights, buffer),
            _ => unreachable!(),
        }
    }

    /// [`Parts::set_size`] with its room.
    pub(crate) fn set_size_in(
        &mut self,
        p: u8,
        handle: u32,
        w: u32,
        h: u32,
        room: &mut CallRoom,
    ) -> Reply
        requires { IsFitRoom self.old p handle w h room.old }
        ensures state { self.new.state ≡ (set_size self.old.state p handle w h).after }
        ensures reply { result ≡ (set_size self.old.state p handle w h).reply }
    {
        match mem::replace(room, CallRoom::Nothing) {
            CallRoom::Size(fit) => self.set_size(p, handle, w, h, fit),
            _ => unreachable!(),
        }
    }

    /// [`Parts::write`] with its room.
    pub(crate) fn write_in(&mut self, p: u8, h: u32, text: &Units, room: &mut CallRoom) -> Reply
        requires { IsTextRoom self.old text.now room.old }
        ensures state { self.new.state ≡ (wrote self.old.state p h text.now).after }
        ensures reply { result ≡ (wrote self.old.state p h text.now).reply }
    {
        match mem::replace(room, CallRoom::Nothing) {
            CallRoom::Text(mut answers) => self.write(p, h, text.as_slice(), &mut answers),
            _ => unreachable!(),
        }
    }

    /// [`Parts::write_rect`] with its room.
    pub(crate) fn write_rect_in(
        &mut self,
        p: u8,
        h: u32,
        rect: Rect,
        text: &Units,
        words: &Words,
        room: &mut CallRoom,
    ) -> Reply
        requires { IsCellRoom text.now words.now (are_cells rect text.now words.now ≡ true) room.old }
        ensures state { self.new.state ≡ (wrote_rect self.old.state p h rect text.now words.now).after }
        ensures reply { result ≡ (wrote_rect self.old.state p h rect text.now words.now).reply }
    {
        match mem::replace(room, CallRoom::Nothing) {
            CallRoom::Cells(cells) => self.write_rect(p, h, rect, text, words, cells),
            _ => unreachable!(),
        }
    }

    /// [`Parts::set_history`] with its room.
    pub(crate) fn set_history_in(&mut self, info: HistoryInfo, room: &mut CallRoom) -> Reply
        requires { room.old ≡ rooms.Settings (room_for_configure self.old.state.histories info) }
        ensures state { self.new.state ≡ (set_history self.old.state info.lines info.number info.flag).after }
        ensures reply { result ≡ (set_history self.old.state info.lines info.number info.flag).reply }
    {
        match mem::replace(room, CallRoom::Nothing) {
            CallRoom::Settings(settings) => self.set_history(info, settings),
            _ => unreachable!(),
        }
    }

    /// [`Parts::add_alias`] with its room.
    pub(crate) fn add_alias_in(
        &mut self,
        program: &Units,
        source: &Units,
        target: &Units,
        room: &mut CallRoom,
    ) -> Reply
        requires room { room.old ≡ rooms.Alias (room_for self.old.state.aliases program.now source.now target.now) }
        requires ready { IsTrue (has_room self.old.spare.aliases program.now) }
        ensures state { self.new.state ≡ (added_alias self.old.state program.now source.now target.now).after }
        ensures reply { result ≡ (added_alias self.old.state program.now source.now target.now).reply }
    {
        match mem::replace(room, CallRoom::Nothing) {
            CallRoom::Alias(alias) => self.add_alias(program, source, target, alias),
            _ => unreachable!(),
        }
    }
}
