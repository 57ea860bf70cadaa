//! What the buffers show, and what was seen of them when it was painted last.
ghost use Rattle.std.specs.Prelude.{◌≡◌, ◌↔◌, ℕ, ◌<◌, ◌≤◌, List, Some, true, false, not, length, replicate, slice_index_or, IfOk};
ghost use Rattle.con_handles.specs.declared.handle.Handle.{Handle};
ghost use Rattle.con_screens.specs.Buffers.{screen_at};
ghost use Rattle.con_screens.specs.Words.Buffers.{AreBuffers};
ghost use Rattle.con_screens.specs.View.{view_of};
ghost use Rattle.con_screens.specs.Words.Stamps.{IsAsShown, all_remembered};
ghost use Rattle.con_machine.specs.Words.ScreenCalls.{page_at};
ghost use Rattle.con_machine.specs.Painting.{stamped};
ghost use Rattle.con_machine.specs.Words.Painting.{differs, next_number};
ghost use Rattle.con_machine.specs.Sound.{AreCounted, IsPainted};
ghost use Rattle.con_machine.specs.Marks.{seen_at};

use crate::calls::setters;
use crate::painting::seen::Seen;
use con_screens::Screens;
use con_units::{Marks, OutOfMemory, Rows, Size, View, index_of};
use std::alloc::Global;

// Where the view is seen.
fn place(screens: &Screens) -> Seen
    requires { AreBuffers screens.now }
    ensures { result ≡ seen_at screens.now }
{
    let id = screens.active();
    let info = setters::info(screens, id);
    Seen {
        buffer: id,
        alternate: screens.alternate_shown(id),
        left: index_of(info.window.left) as u16,
        top: index_of(info.window.top) as u16,
    }
}

/// Whether the view is seen where it was seen when it was painted last.
pub(crate) fn is_known(screens: &Screens, seen: Option<Seen>) -> bool
    requires { AreBuffers screens.now }
    ensures { (result ≡ true) ↔ (seen ≡ Some (seen_at screens.now)) }
{
    match seen {
        None => false,
        Some(seen) => seen == place(screens),
    }
}

/// Whether the buffers show the view that was painted last.
pub(crate) fn is_painted(screens: &Screens, seen: Option<Seen>, painted: &Option<View>) -> bool
    requires buffers { AreBuffers screens.now }
    requires seen { IsPainted (all_remembered screens.now) seen painted.now }
    ensures { not result ≡ differs (view_of (page_at screens.now screens.now.active)) painted.now }
{
    let known = is_known(screens, seen);
    match painted {
        None => false,
        Some(last) => screens.shows(last, known),
    }
}

/// The window's size.
pub(crate) fn window(screens: &Screens) -> Size
    requires { AreBuffers screens.now }
    ensures { result ≡ record { w = screens.now.w; h = screens.now.h } }
{
    let window = setters::info(screens, screens.active()).window;
    Size {
        w: (index_of(window.right) - index_of(window.left) + 1) as u16,
        h: (index_of(window.bottom) - index_of(window.top) + 1) as u16,
    }
}

/// The view, in memory of its own.
pub(crate) fn view(alloc: Global, screens: &Screens) -> Result<View, OutOfMemory>
    requires { AreBuffers screens.now }
    ensures view { IfOk result (λ v. v ≡ view_of (page_at screens.now screens.now.active)) }
    ensures tall { IfOk result (λ v. v.size.h ≡ screens.now.h) }
{
    let size = window(screens);
    let Ok(room) = Vec::with_capacity(alloc, size.w as usize * size.h as usize) else {
        return Err(OutOfMemory);
    };
    Ok(screens.view(room))
}

/// A view's copy.
pub(crate) fn copied(alloc: Global, view: &View) -> Result<View, OutOfMemory>
    ensures { IfOk result (λ v. v ≡ view.now) }
{
    let Ok(cells) = Vec::from_slice(alloc, view.rows.as_slice()) else {
        return Err(OutOfMemory);
    };
    Ok(View {
        size: view.size,
        rows: Rows(cells),
        cursor: view.cursor,
        visible: view.visible,
    })
}

/// The view, in memory of its own. Where it is seen in the same place as that which was painted last, it is a copy of that one in which
/// stamped rows are read anew.
pub(crate) fn view_behind(
    alloc: Global,
    screens: &Screens,
    seen: Option<Seen>,
    painted: &Option<View>,
) -> Result<View, OutOfMemory>
    requires buffers { AreBuffers screens.now }
    requires seen { IsPainted (all_remembered screens.now) seen painted.now }
    ensures view { IfOk result (λ v. v ≡ view_of (page_at screens.now screens.now.active)) }
    ensures tall { IfOk result (λ v. v.size.h ≡ screens.now.h) }
{
    if !is_known(screens, seen) {
        return view(alloc, screens);
    }
    match painted {
        None => view(alloc, screens),
        Some(last) => {
            let copy = copied(alloc, last)?;
            Ok(screens.renewed(copy))
        }
    }
}

fn is_marked(screens: &Screens, all: bool, y: u16) -> bool
    requires buffers { AreBuffers screens.now }
    requires inside { y < screens.now.h }
    ensures all { all ≡ true → result ≡ true }
    ensures same { result ≡ false → IsAsShown (screen_at screens.now screens.now.active).page y }
{
    if all {
        return true;
    }
    screens.is_marked(y)
}

/// A mark for each of the window's rows that may differ from what it was when the screen's number was last raised; or
/// for each row.
pub(crate) fn marks(
    alloc: Global,
    screens: &Screens,
    h: u16,
    all: bool,
) -> Result<Marks, OutOfMemory>
    requires buffers { AreBuffers screens.now }
    requires tall { h ≡ screens.now.h }
    ensures count { IfOk result (λ m. length m ≡ h) }
    ensures all { IfOk result (λ m. all ≡ true → m ≡ replicate h true) }
    ensures same { IfOk result (λ m. (y : ℕ) → y < h → slice_index_or m y true ≡ false → IsAsShown (screen_at screens.now screens.now.active).page y) }
{
    let Ok(mut room) = Vec::with_capacity(alloc, h as usize) else {
        return Err(OutOfMemory);
    };
    for y in 0..h {
        let mark = is_marked(screens, all, y);
        room.push_reserved(mark);
    }
    Ok(Marks(room))
}

// The number after one; the greatest one stays.
fn next_number(number: u64) -> u64
    ensures is { result ≡ next_number number }
    ensures risen { number ≤ result }
{
    if number < u64::MAX {
        number + 1
    } else {
        number
    }
}

/// Raises the number of the screen that is shown, and tells where the view is seen, as far as it is known from here on.
pub(crate) fn stamp(screens: &mut Screens) -> Option<Seen>
    requires { AreBuffers screens.old }
    ensures is { screens.new ≡ stamped screens.old }
    ensures kept { AreBuffers screens.new }
    ensures counted { (hs : List Handle) → AreCounted screens.old hs → AreCounted screens.new hs }
    ensures seen { IsPainted (all_remembered screens.new) result (Some (view_of (page_at screens.old screens.old.active))) }
{
    let id = screens.active();
    let old = screens.screen(id).grid().now();
    let number = next_number(old);
    screens.set_now(id, number);
    if old < number {
        Some(place(screens))
    } else {
        None
    }
}
