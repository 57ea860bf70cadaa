//! The size of a buffer.
ghost use Rattle.std.specs.Prelude.{◌≡◌, ◌==◌, ◌&&◌, ◌||◌, not, true, nat_le, List, IfOk, Option, Some};
ghost use Rattle.con_units.specs.Limits.{most_columns, most_buffer_rows};
ghost use Rattle.con_handles.specs.declared.handle.Handle.{Handle};
ghost use Rattle.con_page.specs.Words.Fit.{IsFit};
ghost use Rattle.con_screens.specs.Buffers.{is_alternate};
ghost use Rattle.con_screens.specs.Words.Buffers.{AreBuffers, IsLive};
ghost use Rattle.con_machine.specs.Outcome.{guard, checked};
ghost use Rattle.con_handles.specs.declared.handle.Kind.TheVariants as kind;
ghost use Rattle.con_machine.specs.Words.ScreenCalls.{is_size, refitted_at, set_size, page_at};
ghost use Rattle.con_machine.specs.Rooms.{IsSizeRoom, IsFitAt};
ghost use Rattle.con_machine.specs.Sound.{AreCounted};

use crate::painting::showing::window;
use crate::parts::Parts;
use con_events::Reply;
use con_page::Fit;
use con_screens::Screens;
use con_units::limits::{MOST_BUFFER_ROWS, MOST_COLUMNS};
use con_units::{BufferId, Code, OutOfMemory, Size};

fn is_within(window: Size, w: u32, h: u32) -> bool
    ensures { result ≡ (nat_le window.w w && nat_le window.h h && nat_le w most_columns && nat_le h most_buffer_rows) }
{
    u32::from(window.w) <= w
        && u32::from(window.h) <= h
        && w <= u32::from(MOST_COLUMNS)
        && h <= u32::from(MOST_BUFFER_ROWS)
}

// Whether a buffer may have this size.
fn is_size(screens: &Screens, id: BufferId, w: u32, h: u32) -> bool
    requires buffers { AreBuffers screens.now }
    requires live { IsLive screens.now id.0 }
    ensures { result ≡ is_size screens.now id.0 w h }
{
    let window = window(screens);
    is_within(window, w, h)
        && (!screens.alternate_shown(id) || (w == u32::from(window.w) && h == u32::from(window.h)))
}

// The memory of another size.
fn fit(screens: &Screens, id: BufferId, w: u32, h: u32) -> Result<Option<Fit>, OutOfMemory>
    requires buffers { AreBuffers screens.now }
    requires live { IsLive screens.now id.0 }
    ensures { IfOk result (λ f. is_size screens.now id.0 w h ≡ true → IsFitAt screens.now id.0 w h f) }
{
    if !is_size(screens, id, w, h) {
        return Ok(None);
    }
    let size = Size {
        w: w as u16,
        h: h as u16,
    };
    Ok(Some(screens.screen(id).fit(size, window(screens))?))
}

// The buffer has another size, and the window keeps its own.
fn refit(screens: &mut Screens, id: BufferId, w: u32, h: u32, fit: Fit)
    requires buffers { AreBuffers screens.old }
    requires live { IsLive screens.old id.0 }
    requires size { is_size screens.old id.0 w h ≡ true }
    requires fit { IsFitAt screens.old id.0 w h (Some fit) }
    ensures is { screens.new ≡ refitted_at screens.old id.0 w h }
    ensures kept { AreBuffers screens.new }
    ensures counted { (hs : List Handle) → AreCounted screens.old hs → AreCounted screens.new hs }
{
    screens.screen_mut(id).resize(fit);
}

impl Parts {
    /// The memory of [`Parts::set_size`]. None where that is refused.
    pub(crate) fn size_room(
        &self,
        p: u8,
        h: u32,
        width: u32,
        height: u32,
    ) -> Result<Option<Fit>, OutOfMemory>
        ensures { IfOk result (λ f. IsSizeRoom self.now.state (guard self.now.state p h kind.Output 2) width height f) }
    {
        match self.output(p, h, 2) {
            Err(_) => Ok(None),
            Ok(id) => fit(&self.screens, id, width, height),
        }
    }

    /// `SetConsoleScreenBufferSize`. 87: a side below the window's or above 512 by 2,048, and on an alternate screen any
    /// other size than the window's.
    pub(crate) fn set_size(
        &mut self,
        p: u8,
        h: u32,
        width: u32,
        height: u32,
        room: Option<Fit>,
    ) -> Reply
        requires room { IsSizeRoom self.old.state (guard self.old.state p h kind.Output 2) width height room }
        ensures state { self.new.state ≡ (set_size self.old.state p h width height).after }
        ensures reply { result ≡ (set_size self.old.state p h width height).reply }
    {
        match self.output(p, h, 2) {
            Err(code) => Reply::Fail(code),
            Ok(id) => {
                if !is_size(&self.screens, id, width, height) {
                    return Reply::Fail(Code::BadArgument);
                }
                let Some(fit) = room else { unreachable!() };
                self.seen = None;
                refit(&mut self.screens, id, width, height, fit);
                Reply::Done
            }
        }
    }
}
