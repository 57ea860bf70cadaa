//! All buffers of a console.
ghost use Rattle.std.specs.Prelude.{◌≡◌, ◌≢◌, ◌↔◌, ℕ, ◌+◌, ◌-◌, ◌*◌, ◌<◌, ◌≤◌, ◌^◌, Some, None, [], true, false};
ghost use Rattle.std.specs.Prelude.{length, replicate, is_none, is_some, IsSome, IfSome, IfOk, IfErr, vec_capacity};
ghost use Rattle.std.specs.List.{position};
ghost use Rattle.std.specs.Option.{option_map_or};
ghost use Rattle.con_units.specs.declared.code.Code.TheVariants.{Limit};
ghost use Rattle.con_screens.specs.Buffer.{new_buffer, buffer_written, told_on};
ghost use Rattle.con_screens.specs.Words.Buffer.{HasWindow, alternate_on, alternate_off};
ghost use Rattle.con_screens.specs.Buffers.{first_buffers};

use crate::buffer::Buffer;
use crate::fits::AllFits;
use crate::resize::{fit_slots, resize_slots};
use crate::room::NewBuffer;
use crate::shows::{is_stamped, shows_view};
use crate::slot;
use crate::view::{renewed, window_of};
use con_screen::{Answers, Screen};
use con_units::{BufferId, Cell, Code, OutOfMemory, Size, View};
use std::alloc::Global;
use std::marker::Model;

/// The screen buffers of a console: the main one, at most seven others, and which one is active.
pub struct Screens {
    slots: Vec<Option<Buffer>>,
    w: u16,
    h: u16,
    active: u32,
    births: u64,
}

impl Model for Screens {
    ghost use Rattle.con_screens.specs.Buffers.{Buffers};

    ghost Value = { Buffers };

    ghost use Rattle.con_screens.specs.Views.{buffers_of};

    ghost view = { buffers_of };
}

// By hand, so that what drops one has this call in its proof, and not all that lies in one.
impl Drop for Screens {
    fn drop(self) {
        let Screens {
            slots: _,
            w: _,
            h: _,
            active: _,
            births: _,
        } = self;
    }
}

impl Screens {
    ghost use Rattle.std.specs.Borrow.{sem};
    ghost use Rattle.con_screens.specs.Buffers.{buffer_at, screen_at, is_alternate, free_id, created, handles_of, handle_retained, handle_released, with_buffer};
    ghost use Rattle.con_screens.specs.Words.Buffers.{AreBuffers, IsLive, IsRoom};
    ghost use Rattle.con_page.specs.Sides.{sides};
    ghost use Rattle.con_screens.specs.Lending.{screen_left};
    ghost use Rattle.con_screens.specs.Words.Lending.{LendsScreen};
    ghost use Rattle.con_screens.specs.Resize.{all_resized};
    ghost use Rattle.con_screens.specs.Words.Resize.{AreFits};
    ghost use Rattle.con_units.specs.Words.View.{IsWhole};
    ghost use Rattle.con_screens.specs.View.{view_of};
    ghost use Rattle.con_screens.specs.Stamps.{numbered};
    ghost use Rattle.con_screens.specs.Words.Stamps.{WasShown, IsAsShown, all_remembered};

    /// The buffers of a new console: the main one, as large as the window, and active.
    pub fn new(alloc: Global, window: Size) -> Result<Screens, OutOfMemory>
        requires some { (0 < window.w) × (0 < window.h) }
        requires few { (window.w ≤ 512) × (window.h ≤ 256) }
        ensures buffers { IfOk result (λ s. s ≡ first_buffers window.w window.h) }
        ensures kept { IfOk result (λ s. AreBuffers s) }
    {
        let main = Buffer::new(alloc, window, 0, 0)?;
        let Ok(mut slots) = Vec::with_capacity(alloc, 8) else {
            let Buffer { .. } = main;
            return Err(OutOfMemory);
        };
        slots.push_reserved(Some(main));
        for k in 0..7usize {
            slots.push_reserved(None);
        }
        Ok(Screens {
            slots,
            w: window.w,
            h: window.h,
            active: 0,
            births: 1,
        })
    }

    /// Takes the memory of a buffer.
    pub fn create_room(&self) -> Result<NewBuffer, OutOfMemory>
        requires { AreBuffers self.now }
        ensures { IfOk result (λ r. IsRoom self.now r) }
    {
        if self.births == u64::MAX {
            return Err(OutOfMemory);
        }
        let window = Size {
            w: self.w,
            h: self.h,
        };
        NewBuffer::new(*self.slots.allocator(), window, self.births)
    }

    /// Makes a buffer as large as the window, with one handle, under the least id that no live buffer has. The room must
    /// have been made in this state. `Limit` says that eight buffers are live.
    pub fn create(&mut self, room: NewBuffer) -> Result<BufferId, Code>
        requires buffers { AreBuffers self.old }
        requires room { IsRoom self.old room }
        ensures made { IfOk result (λ id. (free_id self.old ≡ Some id.0) × (self.new ≡ created self.old id.0)) }
        ensures refused { IfErr result (λ e. (e ≡ Limit) × (free_id self.old ≡ None) × (self.new ≡ self.old)) }
        ensures fresh { IfOk result (λ id. buffer_at self.new id.0 ≡ Some (new_buffer self.old.w self.old.h 1 self.old.births)) }
        ensures kept { AreBuffers self.new }
    {
        match slot::first_free(self.slots.as_slice()) {
            Some(at) => {
                self.slots[at] = Some(room.into_buffer());
                self.births += 1;
                Ok(BufferId(at as u32))
            }
            None => Err(Code::Limit),
        }
    }

    /// The id of the active buffer.
    pub fn active(&self) -> BufferId
        ensures { result.0 ≡ self.now.active }
    {
        BufferId(self.active)
    }

    /// Makes a buffer the active one.
    pub fn activate(&mut self, id: BufferId)
        requires buffers { AreBuffers self.old }
        requires live { IsLive self.old id.0 }
        ensures buffers { self.new ≡ record self.old { active = id.0 } }
        ensures kept { AreBuffers self.new }
        ensures remembered { all_remembered self.new ≡ all_remembered self.old }
    {
        self.active = id.0;
    }

    /// Whether a buffer of this id is live.
    pub fn live(&self, id: BufferId) -> bool
        requires { AreBuffers self.now }
        ensures { result ≡ is_some (buffer_at self.now id.0) }
    {
        if id.0 < 8 {
            slot::is_live(&self.slots[id.0 as usize])
        } else {
            false
        }
    }

    /// Counts one handle more. Those of the main buffer are not counted.
    pub fn retain_handle(&mut self, id: BufferId)
        requires buffers { AreBuffers self.old }
        requires live { IsLive self.old id.0 }
        requires few { id.0 ≢ 0 → handles_of self.old id.0 < 65535 }
        ensures buffers { self.new ≡ handle_retained self.old id.0 }
        ensures kept { AreBuffers self.new }
        ensures remembered { all_remembered self.new ≡ all_remembered self.old }
    {
        if id.0 == 0 {
            return;
        }
        let at = id.0 as usize;
        let handles = slot::handles(&self.slots[at]);
        slot::set_handles(&mut self.slots[at], handles + 1);
    }

    /// Counts one handle less. With its last handle a buffer goes, and where it was active the main one becomes active.
    /// Handles of the main buffer are not counted, and it stays.
    pub fn release_handle(&mut self, id: BufferId)
        requires buffers { AreBuffers self.old }
        requires live { IsLive self.old id.0 }
        ensures buffers { self.new ≡ handle_released self.old id.0 }
        ensures kept { AreBuffers self.new }
    {
        if id.0 == 0 {
            return;
        }
        let at = id.0 as usize;
        let handles = slot::handles(&self.slots[at]);
        if handles <= 1 {
            self.slots[at] = None;
            if self.active == id.0 {
                self.active = 0;
            }
        } else {
            slot::set_handles(&mut self.slots[at], handles - 1);
        }
    }

    /// Whether the alternate screen of a buffer is shown.
    pub fn alternate_shown(&self, id: BufferId) -> bool
        requires buffers { AreBuffers self.now }
        requires live { IsLive self.now id.0 }
        ensures { result ≡ is_alternate self.now id.0 }
    {
        slot::is_alternate(&self.slots[id.0 as usize])
    }

    /// A number that no other buffer has or had, also none that had this id before.
    pub fn birth(&self, id: BufferId) -> u64
        requires buffers { AreBuffers self.now }
        requires live { IsLive self.now id.0 }
        ensures { result ≡ option_map_or (λ b. b.birth) (buffer_at self.now id.0) 0 }
    {
        slot::birth(&self.slots[id.0 as usize])
    }

    /// The screen of a buffer that is shown.
    pub fn screen(&self, id: BufferId) -> &Screen
        requires buffers { AreBuffers self.now }
        requires live { IsLive self.now id.0 }
        ensures shown { IfSome (buffer_at self.now id.0) (λ b. result.now ≡ b.shown) }
        ensures screen { result.now ≡ screen_at self.now id.0 }
        ensures window { HasWindow result.now self.now.w self.now.h }
    {
        slot::screen(&self.slots[id.0 as usize])
    }

    /// The screen of a buffer that is shown, to be changed. Every later call needs that it has a window of the size that
    /// it had and, where it is the alternate screen, a buffer of that size.
    pub fn screen_mut(&mut self, id: BufferId) -> &mut Screen
        requires buffers { AreBuffers self.old }
        requires live { IsLive self.old id.0 }
        ensures* lends { sem 𝓛 (LendsScreen self.entry id.0 result) }
        ensures shown { IfSome (buffer_at self.old id.0) (λ b. result.now ≡ b.shown) }
        ensures screen { result.now ≡ screen_at self.old id.0 }
        ensures window { HasWindow result.now self.old.w self.old.h }
    {
        self.lend(id)
    }

    fn lend(&mut self, id: BufferId) -> &mut Screen
        requires buffers { AreBuffers self.old }
        requires live { IsLive self.old id.0 }
        ensures* lends { sem 𝓛 (LendsScreen self.entry id.0 result) }
        ensures screen { IfSome (buffer_at self.old id.0) (λ b. result.now ≡ b.shown) }
    {
        let slot = &mut self.slots[id.0 as usize];
        slot.as_mut().unwrap().shown_mut()
    }

    /// Writes units on a buffer. Where they switch to the alternate screen or back, the rest goes to the other screen.
    pub fn write(&mut self, id: BufferId, units: &[u16], answers: &mut Answers)
        requires buffers { AreBuffers self.old }
        requires live { IsLive self.old id.0 }
        requires room { length units.now ≤ answers.old.room }
        ensures buffers { self.new ≡ with_buffer self.old id.0 (buffer_written answers.old.told units.now) }
        ensures answers { answers.new
            ≡ record { told = told_on (buffer_at self.old id.0) answers.old.told units.now; room = answers.old.room - length units.now } }
        ensures kept { AreBuffers self.new }
        ensures remembered { all_remembered self.new ≡ all_remembered self.old }
    {
        slot::write_in(&mut self.slots[id.0 as usize], units, answers);
    }

    /// Shows the alternate screen of a buffer, unless it is shown.
    pub fn alternate_on(&mut self, id: BufferId)
        requires buffers { AreBuffers self.old }
        requires live { IsLive self.old id.0 }
        ensures buffers { self.new ≡ with_buffer self.old id.0 alternate_on }
        ensures kept { AreBuffers self.new }
        ensures remembered { all_remembered self.new ≡ all_remembered self.old }
    {
        slot::alternate_on_in(&mut self.slots[id.0 as usize]);
    }

    /// Shows the main screen of a buffer, unless it is shown.
    pub fn alternate_off(&mut self, id: BufferId)
        requires buffers { AreBuffers self.old }
        requires live { IsLive self.old id.0 }
        ensures buffers { self.new ≡ with_buffer self.old id.0 alternate_off }
        ensures kept { AreBuffers self.new }
        ensures remembered { all_remembered self.new ≡ all_remembered self.old }
    {
        slot::alternate_off_in(&mut self.slots[id.0 as usize]);
    }

    /// What the console shows: the window of the active buffer, in a vector that is empty and has room for its cells.
    pub fn view(&self, rows: Vec<Cell>) -> View
        requires buffers { AreBuffers self.now }
        requires empty { rows.items ≡ [] }
        requires spare { self.now.w * self.now.h ≤ vec_capacity rows }
        ensures shown { IfSome (buffer_at self.now self.now.active) (λ b. result ≡ view_of b.shown.page) }
        ensures view { result ≡ view_of (screen_at self.now self.now.active).page }
        ensures whole { IsWhole result }
        ensures size { (result.size.w ≡ self.now.w) × (result.size.h ≡ self.now.h) }
    {
        let shown = slot::screen(&self.slots[self.active as usize]);
        let window = Size {
            w: self.w,
            h: self.h,
        };
        window_of(shown, window, rows)
    }

    /// What the console shows, in the place of the view that was shown when the number of the active buffer's screen was last raised, at
    /// the window's present place. Only rows that are stamped with the number are read.
    pub fn renewed(&self, last: View) -> View
        requires buffers { AreBuffers self.now }
        requires known { WasShown (sides (screen_at self.now self.now.active).page) (screen_at self.now self.now.active).page.left
            (screen_at self.now self.now.active).page.top last }
        ensures view { result ≡ view_of (screen_at self.now self.now.active).page }
        ensures size { (result.size.w ≡ self.now.w) × (result.size.h ≡ self.now.h) }
    {
        let window = Size {
            w: self.w,
            h: self.h,
        };
        renewed(self.screen(self.active()), window, last)
    }

    /// Raises the number of a buffer's shown screen, or leaves it. Where it is raised, the view at this moment is known
    /// (`WasShown`) until the screen is resized.
    pub fn set_now(&mut self, id: BufferId, number: u64)
        requires buffers { AreBuffers self.old }
        requires live { IsLive self.old id.0 }
        requires risen { (screen_at self.old id.0).page.grid.now ≤ number }
        ensures buffers { self.new ≡ screen_left self.old id.0 (numbered (screen_at self.old id.0) number) }
        ensures kept { AreBuffers self.new }
        ensures view { view_of (screen_at self.new id.0).page ≡ view_of (screen_at self.old id.0).page }
        ensures shown { (screen_at self.old id.0).page.grid.now < number
            → WasShown (sides (screen_at self.new id.0).page) (screen_at self.new id.0).page.left (screen_at self.new id.0).page.top
            (view_of (screen_at self.old id.0).page) }
    {
        self.raise(id, number);
    }

    fn raise(&mut self, id: BufferId, number: u64)
        requires buffers { AreBuffers self.old }
        requires live { IsLive self.old id.0 }
        requires risen { (screen_at self.old id.0).page.grid.now ≤ number }
        ensures buffers { self.new ≡ screen_left self.old id.0 (numbered (screen_at self.old id.0) number) }
        ensures kept { AreBuffers self.new }
    {
        self.screen_mut(id).grid_mut().set_now(number);
    }

    /// Whether the console shows this view. Where it is known to have been shown when the number of the active buffer's
    /// screen was last raised, at the window's present place, only rows that are stamped with the number are looked at.
    pub fn shows(&self, last: &View, known: bool) -> bool
        requires buffers { AreBuffers self.now }
        requires known { known ≡ true
            → WasShown (sides (screen_at self.now self.now.active).page) (screen_at self.now self.now.active).page.left
            (screen_at self.now self.now.active).page.top last.now }
        ensures exact { (result ≡ true) ↔ (view_of (screen_at self.now self.now.active).page ≡ last.now) }
    {
        let window = Size {
            w: self.w,
            h: self.h,
        };
        shows_view(self.screen(self.active()), window, last, known)
    }

    /// Whether a row of the window may differ from that of the view that was shown when the number of the active
    /// buffer's screen was last raised.
    pub fn is_marked(&self, y: u16) -> bool
        requires buffers { AreBuffers self.now }
        requires inside { y < self.now.h }
        ensures same { result ≡ false → IsAsShown (screen_at self.now self.now.active).page y }
    {
        is_stamped(self.screen(self.active()), y)
    }

    /// Takes the memory of a resize of the window in every buffer.
    pub fn resize_room(&self, window: Size) -> Result<AllFits, OutOfMemory>
        requires buffers { AreBuffers self.now }
        requires some { (0 < window.w) × (0 < window.h) }
        requires few { (window.w ≤ 512) × (window.h ≤ 256) }
        ensures window { IfOk result (λ f. f.window ≡ window) }
        ensures fits { IfOk result (λ f. AreFits self.now f) }
    {
        let old = Size {
            w: self.w,
            h: self.h,
        };
        let slots = fit_slots(*self.slots.allocator(), self.slots.as_slice(), old, window)?;
        Ok(AllFits { window, slots })
    }

    /// Resizes the window in every buffer. A side of a main screen that is the window's becomes the new one, another the
    /// larger of itself and the new one; an alternate screen takes the window's size. The room must have been made in
    /// this state.
    pub fn resize_all(&mut self, mut fits: AllFits)
        requires buffers { AreBuffers self.old }
        requires fits { AreFits self.old fits }
        ensures buffers { self.new ≡ all_resized self.old fits.window }
        ensures kept { AreBuffers self.new }
    {
        resize_slots(&mut self.slots, &mut fits.slots, fits.window);
        self.w = fits.window.w;
        self.h = fits.window.h;
    }
}
