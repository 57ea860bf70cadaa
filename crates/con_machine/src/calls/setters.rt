//! What a call does to the screen that a buffer shows.
ghost use Rattle.std.specs.Prelude.{◌≡◌, ℕ, List, OnOk, OnErr, nat_lt, nat_le, ◌&&◌};
ghost use Rattle.con_handles.specs.declared.handle.Handle.{Handle};
ghost use Rattle.con_units.specs.Natural.{natural};
ghost use Rattle.con_page.specs.Setters.{pen_of_word, info_of, cursor_set, origin_set};
ghost use Rattle.con_screen.specs.ModeSet.{mode_set};
ghost use Rattle.con_screens.specs.Buffers.{screen_at};
ghost use Rattle.con_screens.specs.Words.Buffers.{AreBuffers, IsLive};
ghost use Rattle.con_screens.specs.Lending.{screen_left};
ghost use Rattle.con_screens.specs.Words.Stamps.{all_remembered};
ghost use Rattle.con_machine.specs.Outcome.{checked};
ghost use Rattle.con_machine.specs.Words.ScreenCalls.{page_at, is_place, is_origin, page_left};
ghost use Rattle.con_machine.specs.Sound.{AreCounted};

use con_page::Info;
use con_screens::Screens;
use con_units::{BufferId, Code, Coord};

/// What there is to know of a buffer.
pub(crate) fn info(screens: &Screens, id: BufferId) -> Info
    requires buffers { AreBuffers screens.now }
    requires live { IsLive screens.now id.0 }
    ensures { result ≡ info_of (page_at screens.now id.0) }
{
    screens.screen(id).info()
}

/// Sets the pen.
pub(crate) fn set_attr(screens: &mut Screens, id: BufferId, word: u16)
    requires buffers { AreBuffers screens.old }
    requires live { IsLive screens.old id.0 }
    ensures screen { screens.new ≡ page_left screens.old id.0 (record (page_at screens.old id.0) { pen = pen_of_word word }) }
    ensures kept { AreBuffers screens.new }
    ensures counted { (hs : List Handle) → AreCounted screens.old hs → AreCounted screens.new hs }
    ensures remembered { all_remembered screens.new ≡ all_remembered screens.old }
{
    screens.screen_mut(id).set_attr(word);
}

/// Sets the output mode.
pub(crate) fn set_mode(screens: &mut Screens, id: BufferId, mode: u32) -> Result<(), Code>
    requires buffers { AreBuffers screens.old }
    requires live { IsLive screens.old id.0 }
    ensures answer { result ≡ checked (nat_lt mode 0x10) }
    ensures changed { OnOk result (screens.new ≡ screen_left screens.old id.0 (mode_set (screen_at screens.old id.0) mode)) }
    ensures refused { OnErr result (screens.new ≡ screens.old) }
    ensures kept { AreBuffers screens.new }
    ensures counted { (hs : List Handle) → AreCounted screens.old hs → AreCounted screens.new hs }
    ensures remembered { all_remembered screens.new ≡ all_remembered screens.old }
{
    screens.screen_mut(id).set_mode(mode)
}

/// Moves the cursor.
pub(crate) fn set_cursor(screens: &mut Screens, id: BufferId, at: Coord) -> Result<(), Code>
    requires buffers { AreBuffers screens.old }
    requires live { IsLive screens.old id.0 }
    ensures answer { result ≡ checked (is_place (page_at screens.old id.0) at.x at.y) }
    ensures changed { OnOk result (screens.new ≡ page_left screens.old id.0 (cursor_set (page_at screens.old id.0) (natural at.x) (natural at.y))) }
    ensures refused { OnErr result (screens.new ≡ screens.old) }
    ensures kept { AreBuffers screens.new }
    ensures counted { (hs : List Handle) → AreCounted screens.old hs → AreCounted screens.new hs }
    ensures remembered { all_remembered screens.new ≡ all_remembered screens.old }
{
    screens.screen_mut(id).set_cursor(at)
}

/// Moves the window.
pub(crate) fn set_origin(screens: &mut Screens, id: BufferId, at: Coord) -> Result<(), Code>
    requires buffers { AreBuffers screens.old }
    requires live { IsLive screens.old id.0 }
    ensures answer { result ≡ checked (is_origin (page_at screens.old id.0) at.x at.y) }
    ensures changed { OnOk result (screens.new ≡ page_left screens.old id.0 (origin_set (page_at screens.old id.0) (natural at.x) (natural at.y))) }
    ensures refused { OnErr result (screens.new ≡ screens.old) }
    ensures kept { AreBuffers screens.new }
    ensures counted { (hs : List Handle) → AreCounted screens.old hs → AreCounted screens.new hs }
    ensures remembered { all_remembered screens.new ≡ all_remembered screens.old }
{
    screens.screen_mut(id).set_window_origin(at)
}

/// Sets the cursor's size and whether it shows.
pub(crate) fn set_cursor_info(
    screens: &mut Screens,
    id: BufferId,
    size: u32,
    visible: bool,
) -> Result<(), Code>
    requires buffers { AreBuffers screens.old }
    requires live { IsLive screens.old id.0 }
    ensures answer { result ≡ checked (nat_lt 0 size && nat_le size 100) }
    ensures changed { OnOk result (screens.new ≡ page_left screens.old id.0 (record (page_at screens.old id.0) { cursor_size = size; visible = visible })) }
    ensures refused { OnErr result (screens.new ≡ screens.old) }
    ensures kept { AreBuffers screens.new }
    ensures counted { (hs : List Handle) → AreCounted screens.old hs → AreCounted screens.new hs }
    ensures remembered { all_remembered screens.new ≡ all_remembered screens.old }
{
    screens.screen_mut(id).set_cursor_info(size, visible)
}
