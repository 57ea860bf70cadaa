//! The buttons that are held, and the records of reports.
ghost use Rattle.std.specs.Prelude.{◌≡◌, ℕ, ◌+◌, ◌-◌, ◌*◌, ◌/◌, ◌%◌, ◌<◌, ◌≤◌, true, false, Option, Some, None};
ghost use Rattle.con_mouse.specs.Words.Reports.{IsReport};
ghost use Rattle.con_mouse.specs.Presses as spec;

use crate::report::Report;
use con_records::Mouse;

/// The buttons that are held.
#[derive(Clone, Copy, PartialEq, Eq)]
pub struct Buttons {
    /// The left one.
    pub left: bool,
    /// The right one.
    pub right: bool,
    /// The middle one.
    pub middle: bool,
}

/// A button that a report names.
#[derive(Clone, Copy, PartialEq, Eq)]
pub enum Button {
    Left,
    Middle,
    Right,
}

/// What a report tells.
#[derive(Clone, Copy, PartialEq, Eq)]
pub enum Action {
    /// A wheel turned, by this motion in the high half.
    Wheel(u32),
    /// The mouse moved.
    Move,
    /// A button went down or up.
    Change(Button),
    /// Nothing that makes a record.
    Nothing,
}

fn change_of(number: u16) -> Action
    ensures { result ≡ spec.change_of number }
{
    if number == 0 {
        Action::Change(Button::Left)
    } else if number == 1 {
        Action::Change(Button::Middle)
    } else if number == 2 {
        Action::Change(Button::Right)
    } else {
        Action::Nothing
    }
}

fn wheel_of(number: u16) -> Action
    ensures { result ≡ spec.wheel_of number }
{
    if number == 0 {
        Action::Wheel(0x0078_0000)
    } else if number == 1 {
        Action::Wheel(0xFF88_0000)
    } else {
        Action::Nothing
    }
}

fn action_of(report: Report) -> Action
    ensures { result ≡ spec.action_of report }
{
    if report.b / 64 % 2 == 1 {
        if report.press {
            wheel_of(report.b % 4)
        } else {
            Action::Nothing
        }
    } else if report.b / 32 % 2 == 1 {
        if report.press {
            Action::Move
        } else {
            Action::Nothing
        }
    } else {
        change_of(report.b % 4)
    }
}

fn bit(on: bool, value: u32) -> u32
    ensures { result ≡ spec.bit on value }
{
    if on { value } else { 0 }
}

// The control key state of a report.
fn state_of(b: u16) -> u32
    ensures { result ≡ spec.state_of b }
{
    bit(b / 4 % 2 == 1, 0x10) + bit(b / 8 % 2 == 1, 0x02) + bit(b / 16 % 2 == 1, 0x08)
}

fn record_with(report: Report, buttons: u32, flags: u32) -> Mouse
    requires { IsReport report }
    ensures { result ≡ spec.mouse report buttons flags }
{
    Mouse {
        x: (report.x - 1) as i16,
        y: (report.y - 1) as i16,
        buttons,
        state: state_of(report.b),
        flags,
    }
}

impl Buttons {
    /// No button is held.
    pub fn new() -> Buttons
        ensures { result ≡ spec.none_held }
    {
        Buttons {
            left: false,
            right: false,
            middle: false,
        }
    }

    /// The held buttons as a record has them: left 0x1, right 0x2, middle 0x4.
    pub fn held(self) -> u32
        ensures is { result ≡ spec.held self }
        ensures small { result < 8 }
    {
        bit(self.left, 1) + bit(self.right, 2) + bit(self.middle, 4)
    }

    fn set(&mut self, button: Button, down: bool)
        ensures { self.new ≡ spec.with_button self.old button down }
    {
        match button {
            Button::Left => self.left = down,
            Button::Middle => self.middle = down,
            Button::Right => self.right = down,
        }
    }

    /// Takes a report, and makes its record, with the place counted from 0. None: it makes no record, and no button changed.
    pub fn press(&mut self, report: Report) -> Option<Mouse>
        requires { IsReport report }
        ensures held { self.new ≡ spec.held_after self.old report }
        ensures record { result ≡ spec.record_of self.old report }
    {
        match action_of(report) {
            Action::Wheel(motion) => Some(record_with(report, self.held() + motion, 4)),
            Action::Move => Some(record_with(report, self.held(), 1)),
            Action::Change(button) => {
                self.set(button, report.press);
                Some(record_with(report, self.held(), 0))
            }
            Action::Nothing => None,
        }
    }
}
