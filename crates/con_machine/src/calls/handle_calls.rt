//! Calls that make and close handles.
ghost use Rattle.std.specs.Prelude.{◌≡◌, ◌≤◌, ◌<◌};
ghost use Rattle.con_screens.specs.Words.Buffers.{IsRoom};
ghost use Rattle.con_machine.specs.HandleCalls.{opened};
ghost use Rattle.con_machine.specs.Words.HandleCalls.{created_buffer, opened_out, opened_in, closed_handle, duplicated, activated};
ghost use Rattle.con_machine.specs.Outcome.{are_rights};
ghost use Rattle.con_machine.specs.Sound.{HasLive};

use crate::calls::counting;
use crate::painting::seen;
use crate::parts::Parts;
use crate::rooms::unused::refused;
use con_events::Reply;
use con_handles::{Kind, Object};
use con_screens::NewBuffer;
use con_units::Code;

fn are_rights(rights: u32) -> bool
    ensures { result ≡ are_rights rights }
{
    0 < rights && rights <= 3
}

impl Parts {
    // A handle more for an object.
    fn open(&mut self, p: u8, object: Object, rights: u32) -> Reply
        requires room { 0 < self.old.spare.handles }
        requires live { HasLive self.old.state.buffers object }
        ensures state { self.new.state ≡ (opened self.old.state p object rights).after }
        ensures reply { result ≡ (opened self.old.state p object rights).reply }
    {
        if !are_rights(rights) {
            return Reply::Fail(Code::BadArgument);
        }
        match self.handles.open(p, object, rights as u8) {
            Err(code) => Reply::Fail(code),
            Ok(number) => {
                counting::retain(&mut self.screens, object);
                Reply::Number(number)
            }
        }
    }

    /// `CreateConsoleScreenBuffer`. 87: other rights than 1 to 3; 1816: 64 handles or 8 buffers.
    pub(crate) fn create_buffer(&mut self, p: u8, rights: u32, room: NewBuffer) -> Reply
        requires handles { 0 < self.old.spare.handles }
        requires room { IsRoom self.old.state.buffers room }
        ensures state { self.new.state ≡ (created_buffer self.old.state p rights).after }
        ensures reply { result ≡ (created_buffer self.old.state p rights).reply }
    {
        if self.closed {
            return refused(Code::Closed, room);
        }
        if !are_rights(rights) {
            return refused(Code::BadArgument, room);
        }
        match self.handles.next(p) {
            Err(_) => refused(Code::Limit, room),
            Ok(number) => match self.screens.create(room) {
                Err(_) => Reply::Fail(Code::Limit),
                Ok(id) => {
                    // It gets `number`, which is free.
                    let _ = self.handles.open(p, Object::Output(id), rights as u8);
                    Reply::Number(number)
                }
            },
        }
    }

    /// `CreateFile` of `CONOUT$`. 87: other rights than 1 to 3; 1816: 64 handles.
    pub(crate) fn open_out(&mut self, p: u8, rights: u32) -> Reply
        requires handles { 0 < self.old.spare.handles }
        ensures state { self.new.state ≡ (opened_out self.old.state p rights).after }
        ensures reply { result ≡ (opened_out self.old.state p rights).reply }
    {
        if self.closed {
            return Reply::Fail(Code::Closed);
        }
        let active = self.screens.active();
        self.open(p, Object::Output(active), rights)
    }

    /// `CreateFile` of `CONIN$`. 87: other rights than 1 to 3; 1816: 64 handles.
    pub(crate) fn open_in(&mut self, p: u8, rights: u32) -> Reply
        requires handles { 0 < self.old.spare.handles }
        ensures state { self.new.state ≡ (opened_in self.old.state p rights).after }
        ensures reply { result ≡ (opened_in self.old.state p rights).reply }
    {
        if self.closed {
            return Reply::Fail(Code::Closed);
        }
        self.open(p, Object::Input, rights)
    }

    /// `CloseHandle`. What was left for the handle's reads goes with it.
    pub(crate) fn close(&mut self, p: u8, h: u32) -> Reply
        ensures state { self.new.state ≡ (closed_handle self.old.state p h).after }
        ensures reply { result ≡ (closed_handle self.old.state p h).reply }
    {
        if self.closed {
            return Reply::Fail(Code::Closed);
        }
        match self.handles.close(p, h) {
            Err(code) => Reply::Fail(code),
            Ok(object) => {
                self.rests.forget(p, h);
                self.seen = seen::without(self.seen, object);
                counting::release(&mut self.screens, object);
                Reply::Done
            }
        }
    }

    /// `DuplicateHandle`. 5: rights of 1 to 3 of which the handle lacks one; 87: other rights; 1816: 64 handles.
    pub(crate) fn duplicate(&mut self, p: u8, h: u32, rights: u32) -> Reply
        requires handles { 0 < self.old.spare.handles }
        ensures state { self.new.state ≡ (duplicated self.old.state p h rights).after }
        ensures reply { result ≡ (duplicated self.old.state p h rights).reply }
    {
        let right = if are_rights(rights) { rights as u8 } else { 0 };
        match self.guard(p, h, Kind::Any, right) {
            Err(code) => Reply::Fail(code),
            Ok(object) => self.open(p, object, rights),
        }
    }

    /// `SetConsoleActiveScreenBuffer`.
    pub(crate) fn activate(&mut self, p: u8, h: u32) -> Reply
        ensures state { self.new.state ≡ (activated self.old.state p h).after }
        ensures reply { result ≡ (activated self.old.state p h).reply }
    {
        match self.output(p, h, 2) {
            Err(code) => Reply::Fail(code),
            Ok(id) => {
                self.screens.activate(id);
                Reply::Done
            }
        }
    }
}
