//! Calls on a screen buffer as a whole, on modes, and on the title.
ghost use Rattle.std.specs.Prelude.{◌≡◌, ◌<◌, bit_and, ◌==◌, true, Ok, IfOk};
ghost use Rattle.con_handles.specs.declared.handle.Kind.TheVariants as kind;
ghost use Rattle.con_machine.specs.ScreenCalls.{is_input_mode};
ghost use Rattle.con_machine.specs.Words.ScreenCalls.{told_mode, set_mode, told_info, set_cursor, told_cursor, set_cursor_info, set_origin, set_attr, set_size, told_title, set_title, numbers_of, cursor_numbers};
ghost use Rattle.con_machine.specs.Outcome.{has_bit};

use crate::calls::copies::{numbers, text};
use crate::calls::setters;
use crate::parts::Parts;
use con_events::{Numbers, Reply};
use con_handles::{Kind, Object};
use con_page::Info;
use con_units::{Code, Coord, OutOfMemory};
use std::alloc::Global;

/// Whether a mode has one of these bits.
pub(crate) fn has_bit(mode: u32, bit: u32) -> bool
    ensures { result ≡ has_bit mode bit }
{
    mode & bit != 0
}

fn is_input_mode(n: u32) -> bool
    ensures { result ≡ is_input_mode n }
{
    n & 0x2FF == n && !(has_bit(n, 4) && !has_bit(n, 2))
}

fn info_numbers(alloc: Global, info: Info) -> Result<Numbers, OutOfMemory>
    ensures { IfOk result (λ n. n ≡ numbers_of info) }
{
    numbers(
        alloc,
        &[
            i64::from(info.buffer.w),
            i64::from(info.buffer.h),
            i64::from(info.cursor.x),
            i64::from(info.cursor.y),
            i64::from(info.word),
            i64::from(info.window.left),
            i64::from(info.window.top),
            i64::from(info.window.right),
            i64::from(info.window.bottom),
        ],
    )
}

fn cursor_numbers(alloc: Global, size: u32, visible: bool) -> Result<Numbers, OutOfMemory>
    ensures { IfOk result (λ n. n ≡ cursor_numbers size visible) }
{
    numbers(alloc, &[i64::from(size), if visible { 1 } else { 0 }])
}

impl Parts {
    /// `GetConsoleMode`.
    pub(crate) fn told_mode(&self, p: u8, h: u32) -> Reply
        ensures reply { result ≡ (told_mode self.now.state p h).reply }
    {
        match self.guard(p, h, Kind::Any, 1) {
            Err(code) => Reply::Fail(code),
            Ok(Object::Input) => Reply::Number(self.mode),
            Ok(Object::Output(id)) => Reply::Number(setters::info(&self.screens, id).mode),
        }
    }

    /// `SetConsoleMode`. 87: an output mode above 15; an input mode with a bit outside 0x02FF, or echo without lines.
    pub(crate) fn set_mode(&mut self, p: u8, h: u32, n: u32) -> Reply
        ensures state { self.new.state ≡ (set_mode self.old.state p h n).after }
        ensures reply { result ≡ (set_mode self.old.state p h n).reply }
    {
        match self.guard(p, h, Kind::Any, 2) {
            Err(code) => Reply::Fail(code),
            Ok(Object::Input) => {
                if !is_input_mode(n) {
                    return Reply::Fail(Code::BadArgument);
                }
                self.mode = n;
                Reply::Done
            }
            Ok(Object::Output(id)) => match setters::set_mode(&mut self.screens, id, n) {
                Err(code) => Reply::Fail(code),
                Ok(()) => Reply::Done,
            },
        }
    }

    /// `GetConsoleScreenBufferInfo`.
    pub(crate) fn told_info(&self, p: u8, h: u32) -> Result<Reply, OutOfMemory>
        ensures reply { IfOk result (λ r. r ≡ (told_info self.now.state p h).reply) }
    {
        match self.output(p, h, 1) {
            Err(code) => Ok(Reply::Fail(code)),
            Ok(id) => {
                let info = setters::info(&self.screens, id);
                Ok(Reply::Numbers(info_numbers(self.title.allocator(), info)?))
            }
        }
    }

    /// `SetConsoleCursorPosition`. 87: a place outside the buffer.
    pub(crate) fn set_cursor(&mut self, p: u8, h: u32, x: i16, y: i16) -> Reply
        ensures state { self.new.state ≡ (set_cursor self.old.state p h x y).after }
        ensures reply { result ≡ (set_cursor self.old.state p h x y).reply }
    {
        match self.output(p, h, 2) {
            Err(code) => Reply::Fail(code),
            Ok(id) => match setters::set_cursor(&mut self.screens, id, Coord { x, y }) {
                Err(code) => Reply::Fail(code),
                Ok(()) => Reply::Done,
            },
        }
    }

    /// `GetConsoleCursorInfo`.
    pub(crate) fn told_cursor(&self, p: u8, h: u32) -> Result<Reply, OutOfMemory>
        ensures reply { IfOk result (λ r. r ≡ (told_cursor self.now.state p h).reply) }
    {
        match self.output(p, h, 1) {
            Err(code) => Ok(Reply::Fail(code)),
            Ok(id) => {
                let info = setters::info(&self.screens, id);
                let list = cursor_numbers(self.title.allocator(), info.cursor_size, info.visible)?;
                Ok(Reply::Numbers(list))
            }
        }
    }

    /// `SetConsoleCursorInfo`. 87: a size of 0, or above 100.
    pub(crate) fn set_cursor_info(&mut self, p: u8, h: u32, size: u32, visible: bool) -> Reply
        ensures state { self.new.state ≡ (set_cursor_info self.old.state p h size visible).after }
        ensures reply { result ≡ (set_cursor_info self.old.state p h size visible).reply }
    {
        match self.output(p, h, 2) {
            Err(code) => Reply::Fail(code),
            Ok(id) => match setters::set_cursor_info(&mut self.screens, id, size, visible) {
                Err(code) => Reply::Fail(code),
                Ok(()) => Reply::Done,
            },
        }
    }

    /// `SetConsoleWindowInfo`, of the window's place alone. 87: the window would leave the buffer.
    pub(crate) fn set_origin(&mut self, p: u8, h: u32, x: i16, y: i16) -> Reply
        ensures state { self.new.state ≡ (set_origin self.old.state p h x y).after }
        ensures reply { result ≡ (set_origin self.old.state p h x y).reply }
    {
        match self.output(p, h, 2) {
            Err(code) => Reply::Fail(code),
            Ok(id) => match setters::set_origin(&mut self.screens, id, Coord { x, y }) {
                Err(code) => Reply::Fail(code),
                Ok(()) => Reply::Done,
            },
        }
    }

    /// `SetConsoleTextAttribute`.
    pub(crate) fn set_attr(&mut self, p: u8, h: u32, word: u16) -> Reply
        ensures state { self.new.state ≡ (set_attr self.old.state p h word).after }
        ensures reply { result ≡ (set_attr self.old.state p h word).reply }
    {
        match self.output(p, h, 2) {
            Err(code) => Reply::Fail(code),
            Ok(id) => {
                setters::set_attr(&mut self.screens, id, word);
                Reply::Done
            }
        }
    }

    /// `GetConsoleTitle`.
    pub(crate) fn told_title(&self) -> Result<Reply, OutOfMemory>
        ensures reply { IfOk result (λ r. r ≡ (told_title self.now.state).reply) }
    {
        if self.closed {
            return Ok(Reply::Fail(Code::Closed));
        }
        let title = text(self.title.allocator(), self.title.as_slice())?;
        Ok(Reply::Units(title))
    }

    /// `SetConsoleTitle`. 87: more than 255 units.
    pub(crate) fn set_title(&mut self, text: &[u16]) -> Reply
        ensures state { self.new.state ≡ (set_title self.old.state text.now).after }
        ensures reply { result ≡ (set_title self.old.state text.now).reply }
    {
        if self.closed {
            return Reply::Fail(Code::Closed);
        }
        if text.len() <= 255 {
            self.title.set(text);
            Reply::Done
        } else {
            Reply::Fail(Code::BadArgument)
        }
    }
}
