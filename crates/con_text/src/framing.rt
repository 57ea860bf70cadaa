//! One frame that shows a view on any terminal of its size.

ghost use Rattle.std.specs.Prelude.{◌≡◌, ℕ, ◌*◌, ◌≤◌, IfOk};
ghost use Rattle.con_term.specs.Terminal.{Terminal, IsTerminal, Shows};
ghost use Rattle.con_term.specs.Play.{play, printed};
ghost use Rattle.con_units.specs.Words.Limits.{IsWindow};
ghost use Rattle.con_units.specs.Words.View.{IsWhole};

use con_paint::{Painter, room_for};
use con_units::{Marks, OutOfMemory, View};
use std::alloc::Global;

/// The bytes of a frame. Every terminal of the view's size that is between sequences shows the view once it has played them, and
/// they print or erase no more cells than it has.
pub fn frame(alloc: Global, view: &View) -> Result<Vec<u8>, OutOfMemory>
    requires window { IsWindow view.now.size.w view.now.size.h }
    requires whole { IsWhole view.now }
    ensures shows { IfOk result (λ bytes. (t : Terminal) → IsTerminal view.now.size.w view.now.size.h t → Shows (play t bytes.items) view.now) }
    ensures few { IfOk result (λ bytes. (t : Terminal) → IsTerminal view.now.size.w view.now.size.h t
        → printed t bytes.items ≤ view.now.size.w * view.now.size.h) }
{
    let mut painter = Painter::new(alloc, view.size)?;
    let Ok(marks) = Vec::from_elem(alloc, true, view.size.h as usize) else {
        return Err(OutOfMemory);
    };
    let Ok(mut bytes) = Vec::with_capacity(alloc, room_for(view.size)) else {
        return Err(OutOfMemory);
    };
    painter.paint(view, &Marks(marks), &mut bytes);
    Ok(bytes)
}
