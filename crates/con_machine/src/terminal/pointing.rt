//! Reports of the mouse, as records.
ghost use Rattle.std.specs.Prelude.{◌≡◌, ◌+◌, ◌-◌, ◌<◌, ◌≤◌, ◌++◌, min, pos, length, option_to_list, IfSome};
ghost use Rattle.con_units.specs.Natural.{natural};
ghost use Rattle.con_mouse.specs.Words.Reports.{IsReport};
ghost use Rattle.con_screens.specs.Words.Buffers.{AreBuffers};
ghost use Rattle.con_machine.specs.Words.ScreenCalls.{page_at};
ghost use Rattle.con_machine.specs.Feeding.{report_taken_in};
ghost use Rattle.con_machine.specs.Words.Terminal.{placed, report_taken};

use crate::calls::screen_calls::has_bit;
use crate::calls::setters;
use crate::parts::Parts;
use con_mouse::Report;
use con_records::{Mouse, Record};
use con_screens::Screens;
use con_units::index_of;

// 0 below 0.
fn natural(at: i16) -> usize
    ensures { result ≡ natural at }
{
    if at < 0 { 0 } else { at as usize }
}

// A place along a window that has so many cells after its first one.
fn along(at: i16, first: usize, more: usize) -> i16
    requires { first + more < 4096 }
    ensures { result ≡ pos (min (natural at) more + first) }
{
    (natural(at).min(more) + first) as i16
}

// The record's place is taken into the active buffer's window, and counted from the buffer's corner.
fn placed(screens: &Screens, mouse: Mouse) -> Mouse
    requires { AreBuffers screens.now }
    ensures { result ≡ placed (page_at screens.now screens.now.active) mouse }
{
    let window = setters::info(screens, screens.active()).window;
    let left = index_of(window.left);
    let top = index_of(window.top);
    let mut placed = mouse;
    placed.x = along(mouse.x, left, index_of(window.right) - left);
    placed.y = along(mouse.y, top, index_of(window.bottom) - top);
    placed
}

impl Parts {
    // A report of the mouse: buttons change, and its record is stored, if it has one.
    fn point(&mut self, report: Report)
        requires report { IsReport report }
        requires room { 0 < self.old.spare.records }
        ensures state { self.new.state ≡ report_taken self.old.state report }
        ensures spare { self.old.spare.records ≤ self.new.spare.records + 1 }
    {
        if let Some(mouse) = self.buttons.press(report) {
            let record = Record::Mouse(placed(&self.screens, mouse));
            self.records.append_reserved(record);
        }
    }

    /// Takes a report of the mouse, if there is one, where input mode 0x0010 asks for reports.
    pub(crate) fn take_report(&mut self, report: Option<Report>)
        requires report { IfSome report IsReport }
        requires room { length (option_to_list report) ≤ self.old.spare.records }
        ensures state { self.new.state ≡ report_taken_in self.old.state report }
        ensures spare { self.old.spare.records ≤ self.new.spare.records + length (option_to_list report) }
    {
        let Some(report) = report else {
            return;
        };
        if has_bit(self.mode, 0x10) {
            self.point(report);
        }
    }
}
