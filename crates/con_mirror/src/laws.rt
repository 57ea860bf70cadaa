//! What a part of a view shows.

ghost use Rattle.std.specs.Prelude.{◌≡◌, ℕ, ◌+◌, ◌*◌, ◌<◌, get_or};
ghost use Rattle.con_units.specs.Glyph.{blank_cell};
ghost use Rattle.con_units.specs.Words.View.{IsWhole};
ghost use Rattle.con_units.specs.declared.place.Size.{Size};
ghost use Rattle.con_units.specs.declared.view.View.{View};
ghost use Rattle.con_mirror.specs.Part.{part};
ghost use Rattle.con_mirror.specs.Words.Part.{cell_at};
ghost use Rattle.con_mirror.specs.Parts.{left_of, top_of};

/// A part has all its cells, and its cursor inside. Each cell is the view's at the same place from the corner on, or a space past it.
pub fn is_seen_by_cells()
    ensures whole { (v : View) (size : Size) → 0 < size.w → 0 < size.h → IsWhole (part v size) }
    ensures cells { (v : View) (size : Size) (x y : ℕ) → IsWhole v → x < size.w → y < size.h
        → get_or (part v size).rows (y * size.w + x) blank_cell ≡ cell_at v (left_of v size.w + x) (top_of v size.h + y) }
{}
