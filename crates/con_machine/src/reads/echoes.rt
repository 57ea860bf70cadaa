//! A line shows on the screen of a buffer.
ghost use Rattle.std.specs.Prelude.{◌≡◌, ℕ, ◌+◌, ◌-◌, ◌<◌, ◌≤◌, ◌^◌, true, List, length};
ghost use Rattle.con_cooked.specs.declared.cooked.Cooked.{Cooked};
ghost use Rattle.con_cooked.specs.Cooked.{line_of};
ghost use Rattle.con_cooked.specs.Words.Cooked.{echo_between};
ghost use Rattle.con_readers.specs.Lines.{line_text};
ghost use Rattle.con_handles.specs.declared.handle.Handle.{Handle};
ghost use Rattle.con_page.specs.Sides.{sides};
ghost use Rattle.con_page.specs.Echo.{ended};
ghost use Rattle.con_screen.specs.Echo.{echoed};
ghost use Rattle.con_page.specs.Words.Page.{IsPage};
ghost use Rattle.con_screens.specs.Buffers.{buffer_at, screen_at};
ghost use Rattle.con_screens.specs.Words.Buffers.{AreBuffers, IsLive};
ghost use Rattle.con_screens.specs.Lending.{screen_left};
ghost use Rattle.con_screens.specs.Words.Stamps.{all_remembered};
ghost use Rattle.con_machine.specs.Words.ScreenCalls.{page_at, page_left};
ghost use Rattle.con_machine.specs.Words.Serving.{is_born, shows_line};
ghost use Rattle.con_machine.specs.Sound.{AreCounted};

use crate::reads::noted::Noted;
use con_cooked::Echo;
use con_page::Origin;
use con_screen::{Screen, is_echoed_by_part};
use con_screens::Screens;
use con_units::{BufferId, index_of};

/// Where a screen's cursor stands, and how wide its buffer is.
#[derive(Clone, Copy)]
pub struct Spot {
    pub width: u16,
    pub x: u16,
    pub y: u16,
}

/// Where the cursor of a buffer stands.
pub(crate) fn cursor_of(screens: &Screens, id: BufferId) -> Spot
    requires buffers { AreBuffers screens.now }
    requires live { IsLive screens.now id.0 }
    ensures width { result.width ≡ (page_at screens.now id.0).grid.width }
    ensures x { result.x ≡ (page_at screens.now id.0).x }
    ensures y { result.y ≡ (page_at screens.now id.0).y }
    ensures inside { result.x < result.width }
    ensures low { result.y < 2 ^ 15 }
{
    let info = screens.screen(id).info();
    Spot {
        width: info.buffer.w,
        x: index_of(info.cursor.x) as u16,
        y: index_of(info.cursor.y) as u16,
    }
}

/// Whether the buffer with this id and birth still lives.
fn is_born(screens: &Screens, id: BufferId, birth: u64) -> bool
    requires { AreBuffers screens.now }
    ensures is { result ≡ is_born birth (buffer_at screens.now id.0) }
    ensures live { result ≡ true → IsLive screens.now id.0 }
{
    if screens.live(id) {
        screens.birth(id) == birth
    } else {
        false
    }
}

/// Whether a read's line shows: it echoes, and its buffer lives.
pub(crate) fn shows_line(screens: &Screens, note: &Noted) -> bool
    requires { AreBuffers screens.now }
    ensures is { result ≡ shows_line screens.now note.now }
    ensures live { result ≡ true → IsLive screens.now note.now.buffer.0 }
{
    if note.echoes {
        is_born(screens, note.buffer, note.birth)
    } else {
        false
    }
}

// A line that changed, of which the whole text is given, shows on a screen.
fn echo_on(screen: &mut Screen, origin: Origin, echo: Echo, text: &[u16]) -> Origin
    requires page { IsPage screen.old.page }
    requires inside { (echo.offset ≤ echo.end) × (echo.end ≡ length text.now) }
    ensures screen { (old new : Cooked) → echo ≡ echo_between (line_of old).line (line_of new).line → text.now ≡ line_text new
        → screen.new ≡ (echoed screen.old origin (line_text old) (line_text new) (line_of new).line.caret).screen }
    ensures origin { (old new : Cooked) → echo ≡ echo_between (line_of old).line (line_of new).line → text.now ≡ line_text new
        → result ≡ (echoed screen.old origin (line_text old) (line_text new) (line_of new).line.caret).origin }
    ensures page { IsPage screen.new.page }
    ensures sides { sides screen.new.page ≡ sides screen.old.page }
{
    is_echoed_by_part();
    let units = &text[echo.offset as usize..];
    screen.echo(origin, echo.offset, units, echo.blanks, echo.caret)
}

/// Shows a line that changed, of which the whole text is given.
pub(crate) fn show(
    screens: &mut Screens,
    id: BufferId,
    origin: Origin,
    echo: Echo,
    text: &[u16],
) -> Origin
    requires buffers { AreBuffers screens.old }
    requires live { IsLive screens.old id.0 }
    requires inside { (echo.offset ≤ echo.end) × (echo.end ≡ length text.now) }
    ensures screen { (old new : Cooked) → echo ≡ echo_between (line_of old).line (line_of new).line → text.now ≡ line_text new
        → screens.new
        ≡ screen_left screens.old id.0 (echoed (screen_at screens.old id.0) origin (line_text old) (line_text new) (line_of new).line.caret).screen }
    ensures origin { (old new : Cooked) → echo ≡ echo_between (line_of old).line (line_of new).line → text.now ≡ line_text new
        → result ≡ (echoed (screen_at screens.old id.0) origin (line_text old) (line_text new) (line_of new).line.caret).origin }
    ensures kept { AreBuffers screens.new }
    ensures counted { (hs : List Handle) → AreCounted screens.old hs → AreCounted screens.new hs }
    ensures remembered { all_remembered screens.new ≡ all_remembered screens.old }
{
    echo_on(screens.screen_mut(id), origin, echo, text)
}

/// Shows that a line of this length ended.
pub(crate) fn show_end(screens: &mut Screens, id: BufferId, origin: Origin, length: u16)
    requires buffers { AreBuffers screens.old }
    requires live { IsLive screens.old id.0 }
    ensures screen { screens.new ≡ page_left screens.old id.0 (ended (page_at screens.old id.0) origin length) }
    ensures kept { AreBuffers screens.new }
    ensures counted { (hs : List Handle) → AreCounted screens.old hs → AreCounted screens.new hs }
    ensures remembered { all_remembered screens.new ≡ all_remembered screens.old }
{
    screens.screen_mut(id).echo_end(origin, length);
}
