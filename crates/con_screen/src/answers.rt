//! What a write tells beside the screen.
ghost use Rattle.std.specs.Prelude.{◌≡◌, ℕ, ◌+◌, ◌-◌, ◌*◌, ◌<◌, ◌≤◌, ◌++◌, ◌∷◌, [], Some, None, IsSome};
ghost use Rattle.std.specs.Prelude.{IsTrue, ◌↔◌, IfOk, OnOk, OnErr, max, vec_len, vec_capacity, length};
ghost use Rattle.con_units.specs.Decimal.{decimal};
ghost use Rattle.con_screen.specs.Told.{Told, nothing_told, cursor_report, reported};
ghost use Rattle.con_screen.specs.Words.Told.{Answered, device_report};

use con_units::OutOfMemory;
use std::alloc::Global;
use std::marker::Model;

/// Reports, a title, the cursor key mode and the switch of screens.
#[derive(Drop)]
pub struct Answers {
    reports: Vec<u16>,
    titled: bool,
    title: Vec<u16>,
    cursor_keys: Option<bool>,
    alternate: Option<bool>,
    room: usize,
}

impl Model for Answers {
    ghost use Rattle.con_units.specs.Decimal.{decimal};
    ghost use Rattle.con_screen.specs.Words.Told.{Answered};

    ghost Value = { Answered };

    ghost use Rattle.con_screen.specs.AnswersView.{answered_of, HaveRoom};

    ghost view = { answered_of };

    ghost invariant = { HaveRoom };
}

#[tactic(auto, unfolding(con_units::specs::Decimal::decimal))]
fn put_number(out: &mut Vec<u16>, n: u16)
    requires small { n < 1000 }
    requires room { vec_len out.old + 3 ≤ vec_capacity out.old }
    ensures items { out.new.items ≡ out.old.items ++ decimal n }
    ensures len { vec_len out.new ≤ vec_len out.old + 3 }
    ensures capacity { vec_capacity out.new ≡ vec_capacity out.old }
{
    if 100 <= n {
        out.push_reserved(0x30 + n / 100);
    }
    if 10 <= n {
        out.push_reserved(0x30 + n / 10 % 10);
    }
    out.push_reserved(0x30 + n % 10);
}

#[tactic(auto, unfolding(crate::specs::Told::cursor_report))]
fn put_cursor(out: &mut Vec<u16>, row: u16, column: u16)
    requires small { (row < 1000) × (column < 1000) }
    requires room { vec_len out.old + 10 ≤ vec_capacity out.old }
    ensures items { out.new.items ≡ out.old.items ++ cursor_report row column }
    ensures len { vec_len out.new ≤ vec_len out.old + 10 }
    ensures capacity { vec_capacity out.new ≡ vec_capacity out.old }
{
    out.push_reserved(0x1B);
    out.push_reserved(0x5B);
    put_number(out, row);
    out.push_reserved(0x3B);
    put_number(out, column);
    out.push_reserved(0x52);
}

// DA: ESC [ ? 1 ; 0 c
const DEVICE_REPORT: [u16; 7] = [0x1B, 0x5B, 0x3F, 0x31, 0x3B, 0x30, 0x63];

impl Answers {
    /// Answers with room for a write of so many units.
    pub fn room(alloc: Global, units: usize) -> Result<Answers, OutOfMemory>
        requires { units ≤ 16777216 }
        ensures { IfOk result (λ a. a ≡ record { told = nothing_told; room = units }) }
    {
        let Ok(reports) = Vec::with_capacity(alloc, 10 * units) else {
            return Err(OutOfMemory);
        };
        let Ok(title) = Vec::with_capacity(alloc, 255) else {
            return Err(OutOfMemory);
        };
        Ok(Answers {
            reports,
            titled: false,
            title,
            cursor_keys: None,
            alternate: None,
            room: units,
        })
    }

    /// The units of the reports, in their order.
    pub fn reports(&self) -> &[u16]
        ensures { result.now ≡ self.now.told.reports }
    {
        self.reports.as_slice()
    }

    /// Whether a title was set.
    pub fn titled(&self) -> bool
        ensures { IsTrue result ↔ IsSome self.now.told.title }
    {
        self.titled
    }

    /// The title that was set last, at most 255 units.
    pub fn title(&self) -> &[u16]
        requires { IsSome self.now.told.title }
        ensures title { self.now.told.title ≡ Some result.now }
        ensures short { length result.now ≤ 255 }
    {
        self.title.as_slice()
    }

    /// The cursor key mode that was set last.
    pub fn cursor_keys(&self) -> Option<bool>
        ensures { result ≡ self.now.told.keys }
    {
        self.cursor_keys
    }

    /// Whether the alternate screen is to be shown, where the last switch said so.
    pub fn alternate(&self) -> Option<bool>
        ensures { result ≡ self.now.told.alternate }
    {
        self.alternate
    }

    /// Makes room for a write of so many units, beside what was told. Takes memory; where there is none, nothing changes.
    pub fn reserve(&mut self, units: usize) -> Result<(), OutOfMemory>
        requires { units ≤ 16777216 }
        ensures reserved { OnOk result (self.new ≡ record self.old { room = max self.old.room units }) }
        ensures refused { OnErr result (self.new ≡ self.old) }
    {
        if self.room < units {
            if self.reports.reserve(10 * units).is_err() {
                return Err(OutOfMemory);
            }
            self.room = units;
        }
        Ok(())
    }

    /// Forgets what was told. The room stays, and no memory is taken.
    pub fn forget(&mut self)
        ensures { self.new ≡ record self.old { told = nothing_told } }
    {
        self.reports.clear();
        self.titled = false;
        self.cursor_keys = None;
        self.alternate = None;
    }

    /// Forgets what was told, and has room for a write of so many units. Takes memory; where there is none, it has told
    /// nothing.
    pub fn clear(&mut self, units: usize) -> Result<(), OutOfMemory>
        requires { units ≤ 16777216 }
        ensures cleared { OnOk result (self.new ≡ record { told = nothing_told; room = units }) }
        ensures nothing { self.new.told ≡ nothing_told }
    {
        self.forget();
        self.room = 0;
        if self.reports.reserve(10 * units).is_err() {
            return Err(OutOfMemory);
        }
        self.room = units;
        Ok(())
    }

    /// For how many further units there is room.
    pub fn left(&self) -> usize
        ensures { result ≡ self.now.room }
    {
        self.room
    }

    /// Units that tell nothing.
    pub(crate) fn spend(&mut self, count: usize)
        requires { count ≤ self.old.room }
        ensures { self.new ≡ record self.old { room = self.old.room - count } }
    {
        self.room -= count;
    }

    /// A unit that asks where the cursor is.
    pub(crate) fn tell_cursor(&mut self, row: u16, column: u16)
        requires room { 0 < self.old.room }
        requires small { (row < 1000) × (column < 1000) }
        ensures { self.new ≡ record { told = reported self.old.told (cursor_report row column); room = self.old.room - 1 } }
    {
        put_cursor(&mut self.reports, row, column);
        self.room -= 1;
    }

    /// A unit that asks what the terminal is.
    pub(crate) fn tell_device(&mut self)
        requires { 0 < self.old.room }
        ensures { self.new ≡ record { told = reported self.old.told device_report; room = self.old.room - 1 } }
    {
        let _ = self.reports.extend_from_slice(&DEVICE_REPORT);
        self.room -= 1;
    }

    /// A unit that sets the cursor key mode.
    pub(crate) fn tell_keys(&mut self, on: bool)
        requires { 0 < self.old.room }
        ensures { self.new ≡ record { told = record self.old.told { keys = Some on }; room = self.old.room - 1 } }
    {
        self.cursor_keys = Some(on);
        self.room -= 1;
    }

    /// A unit that switches to the alternate screen or back.
    pub(crate) fn tell_alternate(&mut self, on: bool)
        requires { 0 < self.old.room }
        ensures { self.new ≡ record { told = record self.old.told { alternate = Some on }; room = self.old.room - 1 } }
    {
        self.alternate = Some(on);
        self.room -= 1;
    }

    /// A unit that ends a title.
    pub(crate) fn tell_title(&mut self, title: &[u16])
        requires room { 0 < self.old.room }
        requires short { length title.now ≤ 255 }
        ensures { self.new ≡ record { told = record self.old.told { title = Some title.now }; room = self.old.room - 1 } }
    {
        self.title.clear();
        let _ = self.title.extend_from_slice(title);
        self.titled = true;
        self.room -= 1;
    }
}
