//! A caller that knows con_paint by its clauses alone.
ghost use Rattle.std.specs.Prelude.{◌≡◌, ◌+◌, ◌<◌, ◌≤◌, ℕ, true, false, ◌++◌, length, drop, slice_index_or};
ghost use Rattle.std.specs.Vec.{vec_len, vec_capacity};
ghost use Rattle.con_units.specs.View.{row_of};
ghost use Rattle.con_units.specs.Words.View.{IsWhole};
ghost use Rattle.con_paint.specs.Painter.{IsShown, frame_room};

use con_paint::Painter;
use con_units::{Marks, View};

/// Paints a view twice behind some bytes: they stay, and the second time nothing is written.
pub fn twice(painter: &mut Painter, view: &View, marks: &Marks, out: &mut Vec<u8>)
    requires view { IsWhole view.now }
    requires size { (view.now.size.w ≡ painter.old.w) × (view.now.size.h ≡ painter.old.h) }
    requires marks { length marks.now ≡ painter.old.h }
    requires marked { painter.old.known ≡ true → (y : ℕ) → y < painter.old.h → slice_index_or marks.now y false ≡ false
        → row_of painter.old.w view.now.rows y ≡ row_of painter.old.w painter.old.cells y }
    requires room { vec_len out.old + frame_room painter.old.w painter.old.h + frame_room painter.old.w painter.old.h ≤ vec_capacity out.old }
    ensures appends { out.new.items ≡ out.old.items ++ drop (length out.old.items) out.new.items }
    ensures shown { IsShown painter.new view.now }
{
    painter.paint(view, marks, out);
    painter.paint(view, marks, out);
}
